// What the exported functions return.
use crate::plain_channel::PlainChannel;
use channel_model::Answer;

// What open and assign return.
#[repr(C)]
#[derive(Clone, Copy)]
pub struct PlainReturned {
    pub refusal: u64,
    pub channel: PlainChannel,
}

// What block returns.
#[repr(C)]
#[derive(Clone, Copy)]
pub struct PlainBlocked {
    pub answer: Answer,
    pub channel: PlainChannel,
}

// What figures returns.
#[repr(C)]
#[derive(Clone, Copy)]
pub struct TwelveFigures {
    pub values: [f32; 12],
}
