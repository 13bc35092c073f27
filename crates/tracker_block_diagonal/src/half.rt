// The covariance as two halves, and the gain of the first.

// The covariances of one channel's phase, frequency and chirp, row by row. By name, as the definitions in specs/ have them, and not for speed: over an array of
// nine the prediction took 7.1 ns for 7.2.
#[derive(Clone, Copy)]
pub struct Half {
    pub pp: f64,
    pub pf: f64,
    pub pc: f64,
    pub fp: f64,
    pub ff: f64,
    pub fc: f64,
    pub cp: f64,
    pub cf: f64,
    pub cc: f64,
}

// Both channels, with no covariance between them.
#[derive(Clone, Copy)]
pub struct Halves {
    pub first: Half,
    pub second: Half,
}

// What a correction by the first channel's phase takes of the innovation into that channel's states. The second channel's gain is 0.
#[derive(Clone, Copy)]
pub struct Gain {
    pub p: f64,
    pub f: f64,
    pub c: f64,
}
