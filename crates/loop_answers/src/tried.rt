// What is asked for of a loop's iterations, and the iteration at which a search ended, noted among a strand's numbers.
ghost use Rattle.std.specs.Prelude.{◌≡◌, ◌≤◌, ◌<◌, IfSome};

use activations::shares::Turns;

/// Stands behind the arguments and a place where the record of these arguments isn't valid.
const STALE: i64 = i64::MIN + 13;

/// The number of an iteration, whether its record was found not to be valid, and the place near which that was looked for, where it is
/// known.
#[derive(Clone, Copy)]
pub(crate) struct Tried {
    pub(crate) number: i64,
    is_stale: bool,
    near: Option<usize>,
}

/// How many iterations are asked for at most, whether fewer are of no use, whether those of a first half are of use even then, and whether
/// all of them are left as they are where not all are answered.
#[derive(Clone, Copy)]
pub(crate) struct Wanted {
    pub(crate) most: u32,
    pub(crate) all: bool,
    pub(crate) halves: bool,
    pub(crate) is_left: bool,
}

/// A search for iterations that are wanted, the iteration at which one before it ended, where it is known, and which argument is the number.
#[derive(Clone, Copy)]
pub(crate) struct Search {
    pub(crate) wanted: Wanted,
    pub(crate) tried: Option<Tried>,
    pub(crate) counted: Option<usize>,
}

/// Iterations of a loop: the number of the first, how many at most, their depth, which argument is the number, and the place at which
/// the record of the first may lie.
#[derive(Clone, Copy)]
pub(crate) struct Ahead {
    pub(crate) number: i64,
    pub(crate) most: u32,
    pub(crate) depth: u32,
    pub(crate) counted: Option<usize>,
    pub(crate) near: usize,
}

/// The iterations that are asked for, from that number on, at that depth, of which the first has that index in its loop.
pub(crate) fn first_ahead(
    search: Search,
    number: i64,
    depth: u32,
    counted: Option<usize>,
    index: u32,
) -> Ahead
    ensures depth { result.depth ≡ depth }
    ensures counted { result.counted ≡ counted }
{
    Ahead {
        number,
        most: search.wanted.most,
        depth,
        counted,
        near: near_of(search.tried, number, index),
    }
}

/// How many iterations are asked for: all that are wanted, or where that of the number that was tried isn't answered those of the
/// first half, if it stands behind these; else none.
pub(crate) fn most_asked(search: Search, first: Ahead, is_stale: bool) -> u32
    ensures few { result ≤ search.wanted.most }
{
    let most = search.wanted.most;
    if !is_stale {
        return most;
    }
    match behind_first(search, first) {
        Some((_, left)) if left.saturating_add(most / 2) <= most => most / 2,
        _ => 0,
    }
}

/// The number that was tried and how many iterations there are from there on, where it is that of one of these but the first, and all
/// are asked for.
pub(crate) fn behind_first(search: Search, first: Ahead) -> Option<(i64, u32)>
    ensures some { IfSome result (λ found. 0 < found.1) }
{
    if !search.wanted.all {
        return None;
    }
    let number = search.tried?.number;
    let behind = number.checked_sub(first.number)?;
    match u32::try_from(behind) {
        Ok(behind) if 0 < behind && behind < first.most => Some((number, first.most - behind)),
        _ => None,
    }
}

/// Whether the record of the first of these iterations was tried and found not to be valid.
pub(crate) fn begins_at_stale(tried: Option<Tried>, turns: Turns) -> bool {
    is_stale_at(tried, first_number(turns))
}

/// The number of the first iteration, where it fits.
pub(crate) fn first_number(turns: Turns) -> i64 {
    turns.site.low.wrapping_add(i64::from(turns.share.first))
}

/// Whether it is of no use to look up records of these iterations, as that of one of them was tried and found not to be valid, and no record
/// changes while a run goes on: that of the first, or of one in the first half, where all are asked for.
pub(crate) fn is_no_use(tried: Option<Tried>, turns: Turns, wanted: Wanted) -> bool {
    match tried {
        Some(tried) if tried.is_stale => {
            let behind = tried
                .number
                .wrapping_sub(first_number(turns))
                .cast_unsigned();
            behind == 0 || wanted.all && behind < u64::from(wanted.most / 2)
        }
        _ => false,
    }
}

/// The iteration at which a search ended, where these are its arguments, so many, with the number at that place.
pub(crate) fn tried_in(numbers: &[i64], counted: Option<usize>, count: usize) -> Option<Tried> {
    let number = *numbers.get(counted?)?;
    let mark = numbers.get(count.wrapping_add(1));
    Some(Tried {
        number,
        is_stale: mark.copied() == Some(STALE),
        near: match numbers.get(count) {
            Some(near) => Some(near.cast_unsigned() as usize),
            None => None,
        },
    })
}

/// Puts that iteration in the place of the one of these arguments, where both are known.
pub(crate) fn keep_tried(numbers: &mut Vec<i64>, counted: Option<usize>, tried: Option<Tried>) {
    match (counted, tried) {
        (Some(place), Some(tried)) if place < numbers.len() => {
            numbers[place] = tried.number;
            if tried.is_stale {
                note_stale(numbers, near_at(tried, tried.number));
            }
        }
        _ => {}
    }
}

/// Notes behind the arguments that their record isn't valid, and the place near which it was looked for.
pub(crate) fn note_stale(numbers: &mut Vec<i64>, near: usize) {
    if numbers.push((near as u64).cast_signed()).is_ok() {
        let _ = numbers.push(STALE);
    }
}

/// Notes in the place of the one of these arguments the number behind iterations that were all found, and behind them the place near
/// which its record may lie: a half that begins there is mostly next.
pub(crate) fn note_behind(
    numbers: &mut Vec<i64>,
    counted: Option<usize>,
    number: i64,
    near: usize,
) {
    match counted {
        Some(place) if place < numbers.len() => {
            numbers[place] = number;
            let _ = numbers.push((near as u64).cast_signed());
        }
        _ => {}
    }
}

/// The place near which the record of the iteration of that number may lie, by the one that was tried; else the index of the iteration in
/// its loop, as the records of the first loop of a session lie.
fn near_of(tried: Option<Tried>, number: i64, index: u32) -> usize {
    match tried {
        Some(tried) if tried.near.is_some() => near_at(tried, number),
        _ => index as usize,
    }
}

/// The place near which the record of the iteration of that number may lie, by that of the one that was tried.
fn near_at(tried: Tried, number: i64) -> usize {
    let behind = number.wrapping_sub(tried.number).cast_unsigned();
    tried.near.unwrap_or(0).wrapping_add(behind as usize)
}

/// Whether the record that was tried is that of the iteration of that number, or of one behind it, and was found not to be valid, or only
/// some iterations were asked for because of it.
pub(crate) fn is_known_ahead(tried: Option<Tried>, number: i64, are_some: bool) -> bool {
    match tried {
        Some(tried) => tried.number >= number && (tried.is_stale || are_some),
        None => false,
    }
}

/// Whether the record of the iteration of that number was tried and found not to be valid.
pub(crate) fn is_stale_at(tried: Option<Tried>, number: i64) -> bool {
    match tried {
        Some(tried) => tried.is_stale && tried.number == number,
        None => false,
    }
}
