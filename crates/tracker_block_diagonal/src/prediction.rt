// Prediction of the covariance, each half by itself.
ghost use Rattle.std.specs.Prelude.{◌≡◌, true};
ghost use Rattle.tracker_covariance.specs.Prediction.{predicted};
ghost use Rattle.tracker_block_diagonal.specs.Code.Joined.{joined};
ghost use Rattle.tracker_block_diagonal.specs.Code.Steady.{Steady};
ghost use Rattle.tracker_block_diagonal.specs.Code.HalfPrediction.{moved_rows, moved_columns, half_mean};

use crate::half::{Half, Halves};
use tracker_covariance::prediction::{ProcessNoise, same_frequency};
use tracker_covariance::states::moved;

// Whether a prediction keeps the halves apart. Half the square of an interval is finite only where the interval is.
pub fn is_steady(dt: f64, ratio: f64) -> bool
    ensures { result ≡ true → Steady dt ratio }
{
    let dt2 = 0.5 * dt * dt;
    dt2.is_finite() && same_frequency(ratio)
}

// F.P of a half.
fn move_rows(h: Half, dt: f64) -> Half
    ensures { result ≡ moved_rows dt h }
{
    let p = moved(h.pp, h.fp, h.cp, dt);
    let f = moved(h.pf, h.ff, h.cf, dt);
    let c = moved(h.pc, h.fc, h.cc, dt);
    Half {
        pp: p[0],
        pf: f[0],
        pc: c[0],
        fp: p[1],
        ff: f[1],
        fc: c[1],
        cp: p[2],
        cf: f[2],
        cc: c[2],
    }
}

// P.Fᵀ of a half.
fn move_columns(h: Half, dt: f64) -> Half
    ensures { result ≡ moved_columns dt h }
{
    let p = moved(h.pp, h.pf, h.pc, dt);
    let f = moved(h.fp, h.ff, h.fc, dt);
    let c = moved(h.cp, h.cf, h.cc, dt);
    Half {
        pp: p[0],
        pf: p[1],
        pc: p[2],
        fp: f[0],
        ff: f[1],
        fc: f[2],
        cp: c[0],
        cf: c[1],
        cc: c[2],
    }
}

// P + Q of a half, and the mean of it and its transpose. A sum is the same in either order, so each mean off the diagonal is taken once.
fn half_mean(h: Half, n: ProcessNoise) -> Half
    ensures { result ≡ half_mean n h }
{
    let p = h.pp + n.q_p;
    let f = h.ff + n.q_f;
    let c = h.cc + n.q_c;
    let pf = (h.pf + 0.0 + (h.fp + 0.0)) * 0.5;
    let pc = (h.pc + 0.0 + (h.cp + 0.0)) * 0.5;
    let fc = (h.fc + 0.0 + (h.cf + 0.0)) * 0.5;
    Half {
        pp: (p + p) * 0.5,
        pf,
        pc,
        fp: pf,
        ff: (f + f) * 0.5,
        fc,
        cp: pc,
        cf: fc,
        cc: (c + c) * 0.5,
    }
}

// The covariance after the interval dt.
pub fn predict(h: Halves, dt: f64, n: ProcessNoise) -> Halves
    requires { Steady dt n.ratio }
    ensures { joined result ≡ predicted dt n (joined h) }
{
    Halves {
        first: half_mean(move_columns(move_rows(h.first, dt), dt), n),
        second: half_mean(move_columns(move_rows(h.second, dt), dt), n),
    }
}
