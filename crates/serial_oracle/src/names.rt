//! What names stand for in a program, and the values of a procedure's names.
ghost use Rattle.std.specs.Prelude.{◌≡◌, map, string_bytes, option_map, IfOk};
ghost use Rattle.meaning.specs.TreeView.{proc, tree};
ghost use Rattle.meaning.specs.Values.{put as put_at};
ghost use Rattle.meaning.specs.Statements.{put_into as put_into_at, procedure_of, numbered, reducers, fresh as fresh_env};

use meaning::tree::{Declaration, Procedure, Program};
use monoid_laws::Kind;
use std::alloc::{AllocError, Global};

/// The procedure of a name.
pub(crate) fn find_procedure<'p>(program: &'p Program, name: &str) -> Option<&'p Procedure>
    ensures { option_map (λ p. proc p.now) result ≡ procedure_of (tree program.now) name.now }
{
    for d in &program.declarations {
        if let Declaration::Procedure(p) = d {
            if p.name.as_str() == name {
                return Some(p);
            }
        }
    }
    None
}

/// The number and the kind of a reducer.
pub(crate) fn find_reducer(program: &Program, name: &str) -> Option<(usize, Kind)>
    ensures { result ≡ option_map (λ p. (p.0, p.1.kind))
        (numbered 0 (reducers (tree program.now)) name.now) }
{
    let mut n = 0;
    for d in &program.declarations {
        if let Declaration::Reducer(r) = d {
            if r.name.as_str() == name {
                return Some((n, r.kind));
            }
            n += 1;
        }
    }
    None
}

/// Gives a name its value.
pub(crate) fn put(env: &mut Vec<Option<i64>>, n: usize, v: i64)
    ensures { env.new.items ≡ put_at env.old.items n v }
{
    if n < env.len() {
        env[n] = Some(v);
    }
}

/// Gives a name its value, where there is one.
pub(crate) fn put_into(env: &mut Vec<Option<i64>>, x: Option<usize>, v: i64)
    ensures { env.new.items ≡ put_into_at x env.old.items v }
{
    match x {
        None => {}
        Some(x) => put(env, x, v),
    }
}

/// The values of the names, with one more.
pub(crate) fn with_name(
    alloc: Global,
    env: &[Option<i64>],
    x: usize,
    v: i64,
) -> Result<Vec<Option<i64>>, AllocError>
    ensures { IfOk result (λ r. r.items ≡ put_at env.now x v) }
{
    let mut r = env.to_vec(alloc)?;
    put(&mut r, x, v);
    Ok(r)
}

/// The values of an instance's names as it begins.
pub(crate) fn fresh(
    alloc: Global,
    names: &[String],
    args: &[i64],
) -> Result<Vec<Option<i64>>, AllocError>
    ensures { IfOk result (λ env. env.items ≡ fresh_env (map string_bytes names.now) args.now) }
{
    let mut env = Vec::new(alloc);
    let mut rest = args;
    for name in names {
        match rest {
            [] => env.push(None)?,
            [v, tail @ ..] => {
                env.push(Some(*v))?;
                rest = tail;
            }
        }
    }
    Ok(env)
}
