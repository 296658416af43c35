// Instances whose arguments are the same but for one, which is counted up.
ghost use Rattle.std.specs.Prelude.{◌≡◌, ◌<◌, ◌∷◌, [], ℤ, true, length, slice_get, Some};
ghost use Rattle.gathered_records.specs.Gathering.{moved_to};

use std::alloc::{AllocError, Global};
use std::marker::Model;

/// The instance of a procedure with these arguments, of which one is counted up or down.
#[derive(Drop)]
pub(crate) struct Row {
    procedure: usize,
    arguments: Vec<i64>,
    counted: usize,
    // The place of a record of the row less its number: records in a row mostly have places in a row.
    offset: usize,
}

impl Model for Row {
    ghost use Rattle.std.specs.Prelude.{◌<◌, length};
    ghost use Rattle.gathered_records.specs.Gathering.{PlainRow};

    ghost Value = { PlainRow };

    ghost view = { λ r. record { procedure = r.procedure; arguments = r.arguments.items; counted = r.counted } };

    ghost invariant = { λ r. r.counted < length r.arguments.items };
}

impl Row {
    /// The row of an instance whose record lies at that place.
    pub(crate) fn new(
        alloc: Global,
        procedure: usize,
        arguments: &[i64],
        counted: usize,
        place: usize,
    ) -> Result<Row, AllocError>
        requires counted { counted < length arguments.now }
    {
        let number = arguments[counted].cast_unsigned() as usize;
        Ok(Row {
            procedure,
            arguments: Vec::from_slice(alloc, arguments)?,
            counted,
            offset: place.wrapping_sub(number),
        })
    }

    /// The number of the procedure.
    pub(crate) fn procedure(&self) -> usize
        ensures procedure { result ≡ self.now.procedure }
    {
        self.procedure
    }

    /// Lends the arguments.
    pub(crate) fn arguments(&self) -> &[i64]
        ensures arguments { result.now ≡ self.now.arguments }
    {
        &self.arguments
    }

    /// Which argument is counted.
    pub(crate) fn counted(&self) -> usize
        ensures counted { result ≡ self.now.counted }
        ensures within { result < length self.now.arguments }
    {
        self.counted
    }

    /// The number in the counted argument.
    pub(crate) fn number(&self) -> i64
        ensures number { slice_get self.now.arguments self.now.counted ≡ Some result }
    {
        self.arguments[self.counted]
    }

    /// The place at which its record may lie.
    #[inline(always)]
    pub(crate) fn near(&self) -> usize {
        let number = self.arguments[self.counted].cast_unsigned() as usize;
        self.offset.wrapping_add(number)
    }

    /// The place at which the record of the instance with that number may lie.
    #[inline(always)]
    pub(crate) fn near_to(&self, number: i64) -> usize {
        self.offset.wrapping_add(number.cast_unsigned() as usize)
    }

    /// Whether the instances have one argument, which is the counted one.
    #[inline(always)]
    #[tactic(auto, using(crate::proofs::Rows::alone_set))]
    pub(crate) fn is_alone(&self) -> bool
        ensures alone { result ≡ true → (z : ℤ) → (moved_to self.now z).arguments ≡ z ∷ [] }
    {
        self.arguments.len() == 1
    }

    /// Goes to the instance with that number.
    pub(crate) fn go_to(&mut self, number: i64)
        ensures there { self.new ≡ moved_to self.old number }
    {
        self.arguments[self.counted] = number;
    }
}
