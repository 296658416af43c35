// The rows of one page.

ghost use Rattle.std.specs.Prelude.{◌≡◌, ◌∷◌, ◌<◌, ◌≤◌, ℤ, [], IfOk, IfErr, IfSome, OnOk, OnErr, Some, length, option_map, slice_get, slice_set, true};
ghost use Rattle.std.specs.List.{insert, remove};
ghost use Rattle.meaning.specs.Tables.{row_of, is_there};
ghost use Rattle.meaning.specs.Edits.{row_put, row_gone};
ghost use Rattle.table_parts.specs.Ends.{last_of};
ghost use Rattle.table_parts.specs.Sums.{added};
ghost use Rattle.input_tables.specs.Pages.{lower_count, AreRising, HasRows, IsOf, IsAbsent};
ghost use Rattle.input_tables.specs.Rows.{AreWide};
ghost use Rattle.input_tables.specs.Sums.{without_row};

use crate::places::{find, place_on_page, stands_at};
use std::alloc::{AllocError, Global};
use std::marker::Model;
use table_parts::cells::{cells_at, insert_row, remove_row, replace_row};
use table_parts::found::last_number;
use table_parts::sums::{put_on, put_over, take_off};

/// Rows with their values, by rising numbers. The cells of all rows stand in one list, row behind row, so that a cell is one
/// load away once its row is found, and a row takes no memory of its own.
#[derive(Drop)]
pub struct Page {
    width: usize,
    numbers: Vec<(i64, ())>,
    cells: Vec<i64>,
}

impl Model for Page {
    ghost use Rattle.std.specs.Prelude.{◌≡◌, ◌*◌, List, length};
    ghost use Rattle.input_tables.specs.Rows.{Row, rows_of};

    ghost Value = { List Row };

    ghost view = { λ page. rows_of page.width page.numbers.items page.cells.items };

    ghost invariant = { λ page. length page.cells.items ≡ length page.numbers.items * page.width };
}

impl Page {
    /// A page of one row.
    pub(crate) fn of_row(alloc: Global, number: i64, values: &[i64]) -> Result<Page, AllocError>
        ensures { IfOk result (λ page. page ≡ (number, values.now) ∷ []) }
    {
        let cells = Vec::from_slice(alloc, values)?;
        let mut numbers = Vec::new(alloc);
        match numbers.push((number, ())) {
            Ok(()) => Ok(Page {
                width: values.len(),
                numbers,
                cells,
            }),
            Err(_) => Err(AllocError),
        }
    }

    /// The values of the row of this number.
    #[inline(always)]
    pub(crate) fn get(&self, number: i64) -> Option<&[i64]>
        requires { AreRising self.now }
        ensures { option_map (λ values. values.now) result ≡ row_of self.now number }
    {
        match self.find(number) {
            Ok(place) => Some(self.values_at(place)),
            Err(_) => None,
        }
    }

    /// The values of the row of this number, where it stands at that place.
    #[inline(always)]
    pub(crate) fn get_at(&self, place: usize, number: i64) -> Option<&[i64]>
        requires { AreRising self.now }
        ensures { IfSome result (λ values. row_of self.now number ≡ Some values.now) }
    {
        if self.is_at(place, number) {
            Some(self.values_at(place))
        } else {
            None
        }
    }

    /// The greatest number.
    pub(crate) fn last(&self) -> Option<i64>
        ensures { result ≡ last_of self.now }
    {
        last_number(&self.numbers)
    }

    /// Puts a row in the place of the one of its number, and says whether there was one. The totals of the columns follow.
    pub(crate) fn put(
        &mut self,
        number: i64,
        values: &[i64],
        sums: &mut Vec<i64>,
    ) -> Result<bool, AllocError>
        requires rising { AreRising self.old }
        requires rows { HasRows self.old }
        requires wide { AreWide (length values.now) self.old }
        ensures there { IfOk result (λ there. there ≡ is_there (row_of self.old number)) }
        ensures put { OnOk result (self.new ≡ row_put number values.now self.old) }
        ensures sums { OnOk result (sums.new.items ≡ added (without_row (row_of self.old number) sums.old.items) values.now) }
        ensures same { OnErr result (self.new ≡ self.old) }
        ensures same_sums { OnErr result (sums.new.items ≡ sums.old.items) }
    {
        match self.find(number) {
            Ok(place) => {
                put_over(sums, self.values_at(place), values);
                self.replace_at(place, values);
                Ok(true)
            }
            Err(place) => {
                self.insert_at(place, number, values)?;
                put_on(sums, values);
                Ok(false)
            }
        }
    }

    /// Takes the row of this number out, and says whether there was one. The totals of the columns follow.
    pub(crate) fn delete(&mut self, number: i64, sums: &mut Vec<i64>) -> bool
        requires { AreRising self.old }
        ensures there { result ≡ is_there (row_of self.old number) }
        ensures gone { self.new ≡ row_gone number self.old }
        ensures sums { sums.new.items ≡ without_row (row_of self.old number) sums.old.items }
    {
        match self.find(number) {
            Ok(place) => {
                take_off(sums, self.values_at(place));
                self.remove_at(place);
                true
            }
            Err(_) => false,
        }
    }

    // Where the row of this number stands, or else where it is to be put.
    #[inline(always)]
    fn find(&self, number: i64) -> Result<usize, usize>
        requires { AreRising self.now }
        ensures place { IfOk result (λ place. place ≡ lower_count number self.now) }
        ensures within { IfOk result (λ place. place < length self.now) }
        ensures there { IfOk result (λ place. IsOf number (slice_get self.now place)) }
        ensures new_place { IfErr result (λ place. place ≡ lower_count number self.now) }
        ensures upto_end { IfErr result (λ place. place ≤ length self.now) }
        ensures absent { IfErr result (λ place. IsAbsent number (slice_get self.now place)) }
    {
        find(&self.numbers, number, place_on_page(number))
    }

    // Whether the row of this number stands at a place.
    #[inline(always)]
    fn is_at(&self, place: usize, number: i64) -> bool
        ensures within { result ≡ true → place < length self.now }
        ensures there { result ≡ true → IsOf number (slice_get self.now place) }
    {
        stands_at(&self.numbers, number, place)
    }

    // The values of the row at a place.
    #[inline(always)]
    fn values_at(&self, place: usize) -> &[i64]
        requires { place < length self.now }
        ensures { option_map (λ row. row.1) (slice_get self.now place) ≡ Some result.now }
    {
        cells_at(&self.cells, place, self.width)
    }

    // Other values for the row at a place.
    fn replace_at(&mut self, place: usize, values: &[i64])
        requires within { place < length self.old }
        requires wide { AreWide (length values.now) self.old }
        ensures { (number : ℤ) → IsOf number (slice_get self.old place) → self.new ≡ slice_set self.old place (number, values.now) }
    {
        replace_row(&mut self.cells, place, values);
    }

    // One more row, in front of those from a place on.
    fn insert_at(&mut self, place: usize, number: i64, values: &[i64]) -> Result<(), AllocError>
        requires upto_end { place ≤ length self.old }
        requires rows { HasRows self.old }
        requires wide { AreWide (length values.now) self.old }
        ensures put { OnOk result (self.new ≡ insert self.old place (number, values.now)) }
        ensures same { OnErr result (self.new ≡ self.old) }
    {
        if self.numbers.insert(place, (number, ())).is_err() {
            return Err(AllocError);
        }
        if insert_row(&mut self.cells, place, values).is_err() {
            self.numbers.remove(place);
            return Err(AllocError);
        }
        Ok(())
    }

    // The row at a place goes.
    fn remove_at(&mut self, place: usize)
        requires { place < length self.old }
        ensures { self.new ≡ remove self.old place }
    {
        self.numbers.remove(place);
        remove_row(&mut self.cells, place, self.width);
    }
}
