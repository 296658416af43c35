//! Which procedures a text may define.

ghost use Rattle.std.specs.Prelude.{◌≡◌, ◌<◌, [], IfOk, IfSome, OnOk, map, length, option_map};
ghost use Rattle.meaning.specs.TreeView.{decl, tree};
ghost use Rattle.source_tree.specs.Source.{texts};
ghost use Rattle.source_tree.specs.Lowering.{found_index};
ghost use Rattle.token_readers.specs.Rooms.{with_new, names_from, procedures_in, room_of, room_behind, turns_of};
ghost use Rattle.token_readers.specs.Seen as seen;

use crate::bounds::MOST_PROCEDURES;
use meaning::tree::{Declaration, Program};
use plain_rules::limits::left_of;
use std::alloc::{AllocError, Global};

/// The names of the procedures that may still be replaced, and how many new ones may come.
#[derive(Drop)]
pub struct Room {
    known: Vec<String>,
    left: u32,
}

fn found_index(names: &[String], name: &str) -> Option<usize>
    ensures exact { result ≡ found_index name.now (texts names.now) }
    ensures there { IfSome result (λ n. n < length names.now) }
{
    for (place, other) in names.iter().enumerate() {
        if name == other.as_str() {
            return Some(place);
        }
    }
    None
}

/// Puts a name last, where it is none of these.
fn add_new(alloc: Global, names: &mut Vec<String>, name: &str) -> Result<(), AllocError>
    ensures { OnOk result (texts names.new.items ≡ with_new (texts names.old.items) name.now) }
{
    if found_index(names, name).is_some() {
        return Ok(());
    }
    names.push(String::from_str(alloc, name)?)?;
    Ok(())
}

/// The names of the procedures among declarations, each once.
fn names_of(alloc: Global, declarations: &[Declaration]) -> Result<Vec<String>, AllocError>
    ensures { IfOk result (λ xs. texts xs.items ≡ names_from [] (map decl declarations.now)) }
{
    let mut names = Vec::new(alloc);
    for declaration in declarations {
        if let Declaration::Procedure(procedure) = declaration {
            add_new(alloc, &mut names, &procedure.name)?;
        }
    }
    Ok(names)
}

/// How many procedures are among declarations.
fn procedures_in(declarations: &[Declaration]) -> usize
    ensures { result ≡ procedures_in (map decl declarations.now) }
{
    let mut count = 0;
    for declaration in declarations {
        if let Declaration::Procedure(_) = declaration {
            count += 1;
        }
    }
    count
}

/// The room that a program leaves.
pub fn room_of(alloc: Global, program: &Program) -> Result<Room, AllocError>
    ensures { IfOk result (λ r. seen.room r ≡ room_of (tree program.now)) }
{
    let known = names_of(alloc, &program.declarations)?;
    let left = left_of(MOST_PROCEDURES, procedures_in(&program.declarations)) as u32;
    Ok(Room { known, left })
}

/// The room behind a procedure of this name, where there is room for it.
pub fn room_behind(mut room: Room, name: &str) -> Option<Room>
    ensures { option_map seen.room result ≡ room_behind (seen.room room) name.now }
{
    match found_index(&room.known, name) {
        Some(place) => {
            room.known.remove(place);
            Some(room)
        }
        None => {
            if room.left == 0 {
                None
            } else {
                room.left -= 1;
                Some(room)
            }
        }
    }
}

/// How many procedures may come.
pub fn turns_of(room: &Room) -> usize
    ensures { result ≡ turns_of (seen.room room.now) }
{
    room.known.len() + room.left as usize
}
