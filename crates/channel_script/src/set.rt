// What is set before a call.
ghost use Rattle.std.specs.Prelude.{◌≡◌};
ghost use Rattle.channel_script.specs.Code.Setting.{settings_with, carriers_with, lists_with, tracker_with, channel_with, session_with, set_by};

use crate::change::{Carrier, Change, ListValue, Setting, TrackerValue};
use crate::letters::NoLetter;
use crate::place::Place;
use crate::session::{Lists, Session};
use channel_model::{Carriers, Channel, Settings};
use tracker::state::CarrierPllEkf;

fn set_setting(o: &mut Settings, x: Setting)
    ensures { o.new ≡ settings_with o.old x }
{
    match x {
        Setting::Rate(n) => o.rate = n,
        Setting::Factor(n) => o.factor = n,
        Setting::Modulation(n) => o.modulation = n,
        Setting::Fade(n) => o.fade = n,
        Setting::Ratio(ratio) => o.ratio = ratio,
        Setting::DualLock(on) => o.dual_lock = on,
        Setting::Bank(on) => o.bank = on,
        Setting::Two(on) => o.two = on,
    }
}

fn set_carrier(a: &mut Carriers, x: Carrier)
    ensures { a.new ≡ carriers_with a.old x }
{
    match x {
        Carrier::Nominal(f) => a.nominal = f,
        Carrier::Target(f) => a.target = f,
        Carrier::Target2(f) => a.target2 = f,
        Carrier::Frequency2(f) => a.frequency2 = f,
    }
}

fn set_list(l: &mut Lists, x: ListValue)
    ensures { l.new ≡ lists_with l.old x }
{
    match x {
        ListValue::Flag(n) => l.flag = n,
        ListValue::First(n) => l.first = n,
        ListValue::Second(n) => l.second = n,
        ListValue::Windows(n) => l.windows = n,
        ListValue::Re(v) => l.re = v,
        ListValue::Im(v) => l.im = v,
        ListValue::Other(v) => l.other = v,
        ListValue::Fill(v) => l.fill = v,
    }
}

fn set_tracker(t: &mut CarrierPllEkf, x: TrackerValue)
    ensures { t.new ≡ tracker_with t.old x }
{
    match x {
        TrackerValue::LockMark(on) => t.is_locked = on,
        TrackerValue::Metric(metric) => t.lock_metric = metric,
        TrackerValue::Guard(n) => t.convergence_guard = n,
        TrackerValue::Sums(sum) => {
            t.power.sum_abs_i = sum;
            t.power.sum_q_sq = sum;
        }
        TrackerValue::Frequency(f) => t.x = [0.0, 6.283185307179586 * f, 0.0, 0.0, 0.0, 0.0],
    }
}

// Only the tracker that is meant changes. Not by a function that lends it: what the channel ends as would be a clause of that one, longer than four arms.
fn set_place(c: &mut Channel, place: Place, x: TrackerValue)
    ensures { c.new ≡ channel_with c.old place x }
{
    match place {
        Place::First => set_tracker(&mut c.bank.t0.ekf, x),
        Place::Second => set_tracker(&mut c.bank.t1.ekf, x),
        Place::Third => set_tracker(&mut c.bank.t2.ekf, x),
        Place::Pll => set_tracker(&mut c.pll.ekf, x),
    }
}

fn apply(s: &mut Session, change: Change)
    ensures { s.new ≡ session_with s.old change }
{
    match change {
        Change::Setting(x) => set_setting(&mut s.plan.settings, x),
        Change::Carrier(x) => set_carrier(&mut s.plan.carriers, x),
        Change::List(x) => set_list(&mut s.plan.lists, x),
        Change::Meant(place) => s.plan.place = place,
        Change::Tracker(x) => set_place(&mut s.channel, s.plan.place, x),
        Change::InUse(n) => s.channel.bank.active_idx = n,
    }
}

// A letter that sets nothing is not known.
#[tactic(auto, unfolding(crate::specs::Code::Setting::set_by))]
pub fn set(s: Session, letter: u8, v: f64) -> Session
    ensures { result ≡ set_by s letter v }
{
    let mut s = s;
    match Change::try_from((letter, v)) {
        Ok(change) => apply(&mut s, change),
        Err(NoLetter) => s.known = false,
    }
    s
}
