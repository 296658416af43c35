// Where a number stands among entries by rising numbers, and which page covers a row.

ghost use Rattle.std.specs.Prelude.{◌≡◌, ◌<◌, ◌≤◌, IfOk, IfErr, slice_get, length, true};
ghost use Rattle.input_tables.specs.Pages.{lower_count, page_of, AreRising, IsOf, IsAbsent};

const PAGE_ROWS: i64 = 64;

const PLACES: usize = 64;

/// The number of the page that covers a row. No row has a number below 0, so there is no page of those.
#[inline(always)]
pub(crate) fn page_of(row: i64) -> i64
    ensures { result ≡ page_of row }
{
    if row < 0 { -1 } else { row / PAGE_ROWS }
}

/// Where a row stands in its page, if those before it on the page are all there. A number below 0 is no row's: any place will do.
#[inline(always)]
pub(crate) fn place_on_page(row: i64) -> usize {
    row.cast_unsigned() as usize % PLACES
}

/// Where a page stands, if those before it are all there. None stands at the place of a number below 0.
#[inline(always)]
pub(crate) fn place_among_pages(page: i64) -> usize {
    page.cast_unsigned() as usize
}

/// Where the page of a row stands, if those before it are all there. For a number below 0 no place is so far back.
#[inline(always)]
pub(crate) fn place_of_page(row: i64) -> usize {
    row.cast_unsigned() as usize / PLACES
}

/// Whether the entry of this number stands at a place.
#[inline(always)]
pub(crate) fn stands_at<T>(entries: &[(i64, T)], number: i64, place: usize) -> bool
    ensures within { result ≡ true → place < length entries.now }
    ensures there { result ≡ true → IsOf number (slice_get entries.now place) }
{
    match entries.get(place) {
        Some(entry) if entry.0 == number => true,
        _ => false,
    }
}

/// Where the entry of this number stands, or else where it is to be put. It is quick where the entry stands at `guess`.
#[inline(always)]
pub(crate) fn find<T>(entries: &[(i64, T)], number: i64, guess: usize) -> Result<usize, usize>
    requires { AreRising entries.now }
    ensures place { IfOk result (λ place. place ≡ lower_count number entries.now) }
    ensures within { IfOk result (λ place. place < length entries.now) }
    ensures there { IfOk result (λ place. IsOf number (slice_get entries.now place)) }
    ensures new_place { IfErr result (λ place. place ≡ lower_count number entries.now) }
    ensures upto_end { IfErr result (λ place. place ≤ length entries.now) }
    ensures absent { IfErr result (λ place. IsAbsent number (slice_get entries.now place)) }
{
    match entries.get(guess) {
        Some(entry) if entry.0 == number => Ok(guess),
        _ => look_for(entries, number),
    }
}

// Where the entry of this number stands, or else where it is to be put, without a guess.
#[inline(never)]
fn look_for<T>(entries: &[(i64, T)], number: i64) -> Result<usize, usize>
    requires { AreRising entries.now }
    ensures place { IfOk result (λ place. place ≡ lower_count number entries.now) }
    ensures within { IfOk result (λ place. place < length entries.now) }
    ensures there { IfOk result (λ place. IsOf number (slice_get entries.now place)) }
    ensures new_place { IfErr result (λ place. place ≡ lower_count number entries.now) }
    ensures upto_end { IfErr result (λ place. place ≤ length entries.now) }
    ensures absent { IfErr result (λ place. IsAbsent number (slice_get entries.now place)) }
{
    let place = search(entries, number);
    match entries.get(place) {
        Some(entry) => {
            if entry.0 == number {
                Ok(place)
            } else {
                Err(place)
            }
        }
        None => Err(place),
    }
}

// How many entries have lower numbers.
fn search<T>(entries: &[(i64, T)], number: i64) -> usize
    requires { AreRising entries.now }
    ensures { result ≡ lower_count number entries.now }
{
    let mut low = 0;
    let mut high = entries.len();
    while low < high {
        let middle = low + (high - low) / 2;
        if entries[middle].0 < number {
            low = middle + 1;
        } else {
            high = middle;
        }
    }
    low
}
