// What a letter and a number set before a call. Enums, where look.rt has tables of letters: what is looked at is a float each time, but what is set has a
// type of its own for each letter, and behind this no function has a letter that might stand for nothing.
ghost use Rattle.std.specs.Prelude.{◌≡◌};
ghost use Rattle.std.specs.Float.Ieee.{to_unsigned};
ghost use Rattle.channel_script.specs.Code.Letters.{named};
ghost use Rattle.channel_script.specs.Code.Setting.{set_letters};

use crate::letters::NoLetter;
use crate::place::Place;
use ieee754::conversion::f64_to_f32;
use ieee754::integral::to_usize;

// For the next open.
#[derive(Clone, Copy)]
pub enum Setting {
    Rate(u64),
    Factor(u64),
    Modulation(u64),
    Fade(u64),
    Ratio(f64),
    DualLock(bool),
    Bank(bool),
    Two(bool),
}

// For the next assign, in Hz.
#[derive(Clone, Copy)]
pub enum Carrier {
    Nominal(f64),
    Target(f64),
    Target2(f64),
    Frequency2(f64),
}

// Of the block that is set.
#[derive(Clone, Copy)]
pub enum ListValue {
    Flag(u64),
    First(usize),
    Second(usize),
    Windows(usize),
    Re(f32),
    Im(f32),
    Other(f32),
    Fill(f32),
}

// Of a tracker: its lock mark, metric, guard, both sums of its window, or its frequency in Hz at phase 0.
#[derive(Clone, Copy)]
pub enum TrackerValue {
    LockMark(bool),
    Metric(f64),
    Guard(usize),
    Sums(f64),
    Frequency(f64),
}

#[derive(Clone, Copy)]
pub enum Change {
    Setting(Setting),
    Carrier(Carrier),
    List(ListValue),
    // The tracker that is meant, a value of it, and the number of the tracker in use.
    Meant(Place),
    Tracker(TrackerValue),
    InUse(u64),
}

fn whole(v: f64) -> u64
    ensures { result ≡ to_unsigned 64 v }
{
    to_usize(v) as u64
}

impl TryFrom<(u8, f64)> for Change {
    type Error = NoLetter;

    ghost try_from_gives = { λ said change. change ≡ named said.0 (set_letters said.1) };

    #[tactic(auto, using(std::proofs::lemmas::Bool::Decides::nat_tests), unfolding(crate::specs::Code::Letters::named))]
    fn try_from((letter, v): (u8, f64)) -> Result<Self, NoLetter> {
        Ok(match letter {
            b'r' => Change::Setting(Setting::Rate(whole(v))),
            b'f' => Change::Setting(Setting::Factor(whole(v))),
            b'm' => Change::Setting(Setting::Modulation(whole(v))),
            b's' => Change::Setting(Setting::Fade(whole(v))),
            b'k' => Change::Setting(Setting::Ratio(v)),
            b'd' => Change::Setting(Setting::DualLock(v == 1.0)),
            b'b' => Change::Setting(Setting::Bank(v == 1.0)),
            b'w' => Change::Setting(Setting::Two(v == 1.0)),
            b'n' => Change::Carrier(Carrier::Nominal(v)),
            b't' => Change::Carrier(Carrier::Target(v)),
            b'u' => Change::Carrier(Carrier::Target2(v)),
            b'v' => Change::Carrier(Carrier::Frequency2(v)),
            b'g' => Change::List(ListValue::Flag(whole(v))),
            b'h' => Change::List(ListValue::First(to_usize(v))),
            b'i' => Change::List(ListValue::Second(to_usize(v))),
            b'j' => Change::List(ListValue::Windows(to_usize(v))),
            b'x' => Change::List(ListValue::Re(f64_to_f32(v))),
            b'y' => Change::List(ListValue::Im(f64_to_f32(v))),
            b'z' => Change::List(ListValue::Other(f64_to_f32(v))),
            b'e' => Change::List(ListValue::Fill(f64_to_f32(v))),
            b'K' => Change::Meant(Place::from(whole(v))),
            b'L' => Change::Tracker(TrackerValue::LockMark(v == 1.0)),
            b'M' => Change::Tracker(TrackerValue::Metric(v)),
            b'G' => Change::Tracker(TrackerValue::Guard(to_usize(v))),
            b'Q' => Change::Tracker(TrackerValue::Sums(v)),
            b'F' => Change::Tracker(TrackerValue::Frequency(v)),
            b'U' => Change::InUse(whole(v)),
            _ => return Err(NoLetter),
        })
    }
}
