//! Spans of what instances below another have read, which are mostly of one table.
ghost use Rattle.std.specs.Prelude.{◌≡◌};
ghost use Rattle.instance_records.specs.Spans.{spans_in};

use crate::spans::Span;
use std::slice;

/// Spans in order. One of them lies by itself, so that who asks it needn't go elsewhere; others lie in memory of their own.
#[derive(Drop)]
pub(crate) enum FewSpans {
    One(Span),
    Several(Vec<Span>),
}

impl FewSpans {
    /// These spans, without spare room.
    pub(crate) fn packed(spans: Vec<Span>) -> FewSpans
        ensures same { spans_in result ≡ spans.items }
    {
        let mut spans = spans;
        if spans.len() == 1 {
            return FewSpans::One(spans[0]);
        }
        spans.shrink_to_fit();
        FewSpans::Several(spans)
    }

    /// Lends the spans.
    #[inline(always)]
    pub(crate) fn as_slice(&self) -> &[Span]
        ensures spans { result.now ≡ spans_in self.now }
    {
        match self {
            FewSpans::One(span) => slice::from_ref(span),
            FewSpans::Several(spans) => spans,
        }
    }
}
