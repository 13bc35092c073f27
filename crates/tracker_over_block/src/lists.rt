// The samples that a block gives its trackers.

// One list, or two with two frequencies. The mark beside the lists, and no Option of the second: so the public definitions have them (`over_lists`, and
// `Lists` of a bank), and a channel's setup has the mark.
#[derive(Clone, Copy)]
pub struct Lists<'a> {
    pub two: bool,
    pub first: &'a [f32],
    pub second: &'a [f32],
}
