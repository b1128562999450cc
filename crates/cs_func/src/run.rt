//! What a run of a pattern's parts over a text's segments comes to.
#[derive(Clone, Copy)]
pub(crate) enum Run<'a> {
    // All parts and all segments fit.
    Matched,
    // A part and a segment do not fit, or there are more of one than of the other.
    Failed,
    // All fit before a `**`: the parts behind it, and the segments that are left.
    Any(Option<&'a [u8]>, Option<&'a [u8]>),
}
