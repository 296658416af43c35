// The rows of a table by their numbers.

ghost use Rattle.std.specs.Prelude.{◌≡◌, pos, [], true, IfOk, IfSome, OnOk, OnErr, Some, length, option_map};
ghost use Rattle.meaning.specs.Tables.{row_of, above_all, is_there};
ghost use Rattle.monoid_laws.specs.Kinds.{Fits};
ghost use Rattle.meaning.specs.Edits.{row_put, row_gone, in_range};
ghost use Rattle.table_parts.specs.Sums.{added};
ghost use Rattle.input_tables.specs.Rows.{AreCells, AreWide};
ghost use Rattle.input_tables.specs.Pages.{AreRising};
ghost use Rattle.input_tables.specs.Edited.{RowsFit};
ghost use Rattle.input_tables.specs.Sums.{without_row};

use crate::page::Page;
use crate::places::{find, page_of, place_among_pages, place_of_page, place_on_page};
use std::alloc::{AllocError, Global};
use std::marker::Model;
use table_parts::found::is_found;
use table_parts::sums::put_on;

/// Rows, each with its number and its values, by rising numbers. They stand in pages, each with its own number, so that a
/// row is found at once where none is missing before it, and a lone row of a great number takes little.
#[derive(Drop)]
pub struct Rows {
    alloc: Global,
    pages: Vec<(i64, Page)>,
}

impl Model for Rows {
    ghost use Rattle.std.specs.Prelude.{List};
    ghost use Rattle.input_tables.specs.Rows.{Row};
    ghost use Rattle.input_tables.specs.Pages.{all_of, AreRising, ArePages};

    ghost Value = { List Row };

    ghost view = { λ rows. all_of rows.pages.items };

    ghost invariant = { λ rows. AreRising rows.pages.items × ArePages rows.pages.items };
}

fn number_fits(number: i64)
    ensures fits { Fits number }
{
    let _ = number;
}

// Each value is a number of 64 bits, as its type says.
fn values_fit(values: &[i64])
    ensures fit { AreCells values.now }
{
    for value in values {
        number_fits(*value);
    }
}

impl Rows {
    /// No rows.
    pub(crate) fn new(alloc: Global) -> Rows
        ensures { result ≡ [] }
    {
        Rows {
            alloc,
            pages: Vec::new(alloc),
        }
    }

    /// The values of the row of this number.
    #[inline(always)]
    pub(crate) fn get(&self, number: i64) -> Option<&[i64]>
        ensures { option_map (λ values. values.now) result ≡ row_of self.now number }
    {
        let page = page_of(number);
        match find(&self.pages, page, place_among_pages(page)) {
            Ok(place) => self.pages[place].1.get(number),
            Err(_) => None,
        }
    }

    /// The values of the row of this number, where no row before it is missing; there may be such a row where none is found.
    #[inline(always)]
    pub(crate) fn get_at_once(&self, number: i64) -> Option<&[i64]>
        ensures { IfSome result (λ values. row_of self.now number ≡ Some values.now) }
    {
        match self.pages.get(place_of_page(number)) {
            Some(page) => page.1.get_at(place_on_page(number), number),
            None => None,
        }
    }

    /// Whether there is a row of this number.
    pub(crate) fn has(&self, number: i64) -> bool
        ensures { result ≡ is_there (row_of self.now number) }
    {
        is_found(self.get(number))
    }

    /// What the type keeps: each cell is a number of 64 bits.
    pub(crate) fn cells_fit(&self)
        ensures fit { RowsFit self.now }
    {
        let _ = &self.pages;
    }

    /// One more than the greatest number, or 0 where there are no rows.
    pub(crate) fn limit(&self) -> i64
        ensures { result ≡ above_all (pos 0) self.now }
    {
        match self.pages.last() {
            Some(page) => match page.1.last() {
                Some(number) => number + 1,
                None => 0,
            },
            None => 0,
        }
    }

    /// Puts a row in the place of the one of its number, and says whether there was one. The totals of the columns follow.
    pub(crate) fn put(
        &mut self,
        number: i64,
        values: &[i64],
        sums: &mut Vec<i64>,
    ) -> Result<bool, AllocError>
        requires range { in_range number ≡ true }
        requires wide { AreWide (length values.now) self.old }
        ensures there { IfOk result (λ there. there ≡ is_there (row_of self.old number)) }
        ensures put { OnOk result (self.new ≡ row_put number values.now self.old) }
        ensures sums { OnOk result (sums.new.items ≡ added (without_row (row_of self.old number) sums.old.items) values.now) }
        ensures rising { OnOk result (AreRising self.old) }
        ensures same { OnErr result (self.new ≡ self.old) }
        ensures same_sums { OnErr result (sums.new.items ≡ sums.old.items) }
    {
        values_fit(values);
        let page = page_of(number);
        match find(&self.pages, page, place_among_pages(page)) {
            Ok(place) => self.pages[place].1.put(number, values, sums),
            Err(place) => {
                let rows = Page::of_row(self.alloc, number, values)?;
                if self.pages.insert(place, (page, rows)).is_err() {
                    return Err(AllocError);
                }
                put_on(sums, values);
                Ok(false)
            }
        }
    }

    /// Takes the row of this number out, and says whether there was one. The totals of the columns follow.
    pub(crate) fn delete(&mut self, number: i64, sums: &mut Vec<i64>) -> bool
        ensures there { result ≡ is_there (row_of self.old number) }
        ensures gone { self.new ≡ row_gone number self.old }
        ensures sums { sums.new.items ≡ without_row (row_of self.old number) sums.old.items }
    {
        let page = page_of(number);
        match find(&self.pages, page, place_among_pages(page)) {
            Ok(place) => {
                let page = &mut self.pages[place].1;
                let there = page.delete(number, sums);
                if page.last().is_some() {
                    return there;
                }
                self.pages.remove(place);
                there
            }
            Err(_) => false,
        }
    }
}
