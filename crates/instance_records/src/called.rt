//! The arguments of an instance and how high it is, in few bytes.
ghost use Rattle.std.specs.Prelude.{◌≡◌};
ghost use Rattle.instance_records.specs.Parts.{arguments_in, arguments_of, height_of};

use crate::arguments::Arguments;
use std::slice;

/// Arguments in order, as in `Arguments`, with how many instances were nested in the one that had them, itself counted: both lie in the
/// room that the arguments take alone.
#[derive(Drop)]
pub(crate) enum Called {
    Nothing { height: u32 },
    One { height: u32, item: i64 },
    Two { height: u32, pair: [i64; 2] },
    Several { height: u32, items: Box<Vec<i64>> },
}

impl Called {
    /// Both together.
    #[inline(always)]
    pub(crate) fn new(arguments: Arguments, height: u32) -> Called
        ensures arguments { arguments_of result ≡ arguments_in arguments }
        ensures height { height_of result ≡ height }
    {
        match arguments {
            Arguments::Nothing => Called::Nothing { height },
            Arguments::One(item) => Called::One { height, item },
            Arguments::Two(pair) => Called::Two { height, pair },
            Arguments::Several(items) => Called::Several { height, items },
        }
    }

    /// Lends the arguments.
    #[inline(always)]
    pub(crate) fn arguments(&self) -> &[i64]
        ensures arguments { result.now ≡ arguments_of self.now }
    {
        match self {
            Called::Nothing { height: _ } => &[],
            Called::One { height: _, item } => slice::from_ref(item),
            Called::Two { height: _, pair } => pair,
            Called::Several { height: _, items } => items.as_slice(),
        }
    }

    /// The height.
    #[inline(always)]
    pub(crate) fn height(&self) -> u32
        ensures height { result ≡ height_of self.now }
    {
        match self {
            Called::Nothing { height } => *height,
            Called::One { height, item: _ } => *height,
            Called::Two { height, pair: _ } => *height,
            Called::Several { height, items: _ } => *height,
        }
    }
}
