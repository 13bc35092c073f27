// One case: its words from left to right, each of which sets something, makes calls, or says what is expected.
ghost use Rattle.std.specs.Prelude.{◌≡◌, ◌+◌, ◌≤◌, ◌<◌, MatchOption, IfSome, length, take, drop, get_or};
ghost use Rattle.channel_cases.specs.Code.Cases as meant;

use crate::number::{decimal_of, pattern};
use channel_script::letters::is_one_of;
use channel_script::look::{quantity, rounded};
use channel_script::session::Session;
use channel_script::set::set;

// The place of the sign in a word: after one letter or two. A word that has none is a script. Only one letter is set.
#[tactic(auto, using(crate::proofs::CaseLaws::sign_short, crate::proofs::CaseLaws::sign_one, crate::proofs::CaseLaws::sign_two, crate::proofs::CaseLaws::sign_none))]
fn sign_at(w: &[u8]) -> Option<usize>
    ensures value { MatchOption result
        (meant.sign_place w.now ≡ 0)
        (λ k. (k ≡ meant.sign_place w.now) × (0 < k)) }
    ensures upper_bound { IfSome result (λ k. (k ≤ 2) × (k < length w.now)) }
{
    if w.len() < 3 {
        return None;
    }
    if is_one_of(w[1], b":=!<>") {
        return Some(1);
    }
    if is_one_of(w[2], b"=!<>") {
        return Some(2);
    }
    None
}

// What stands after the sign: a pattern, a quantity, or a decimal number.
#[tactic(auto, using(crate::proofs::CaseLaws::value_none, crate::proofs::CaseLaws::value_pattern, crate::proofs::CaseLaws::value_name, crate::proofs::CaseLaws::value_decimal))]
fn value(s: Session, w: &[u8]) -> f64
    ensures { result ≡ meant.value_of s w.now }
{
    match w {
        [] => quantity(s, w),
        [b'x', digits @ ..] => pattern(digits),
        [.., last] if b'A' <= *last => quantity(s, w),
        _ => decimal_of(w),
    }
}

// No number, which a name that stands for nothing has, compares with none.
#[tactic(auto, using(std::proofs::lemmas::Bool::Decides::nat_tests), unfolding(crate::specs::Code::Cases::compares_by, channel_script::specs::Code::Letters::stands_for))]
fn compares(sign: u8, x: f64, y: f64) -> bool
    ensures { result ≡ meant.compares_by sign x y }
{
    match sign {
        b'=' => x == y,
        b'!' => (x < y) | (y < x),
        b'<' => x < y,
        b'>' => x > y,
        _ => false,
    }
}

// What stands before the sign, the sign, and what stands behind it; none of a script.
#[tactic(auto, using(pass_reader::proofs::ByteLaws::tail_is))]
fn parts(w: &[u8]) -> Option<(&[u8], u8, &[u8])>
    ensures { MatchOption result
        (meant.sign_place w.now ≡ 0)
        (λ r. (0 < meant.sign_place w.now)
        × (meant.sign_place w.now < length w.now)
        × (r.0.now ≡ take (meant.sign_place w.now) w.now)
        × (r.1 ≡ get_or w.now (meant.sign_place w.now) 0)
        × (r.2.now ≡ drop (meant.sign_place w.now + 1) w.now)) }
{
    let k = sign_at(w)?;
    let behind = k + 1;
    Some((&w[..k], w[k], &w[behind..]))
}

// A case so far: its session, whether it asked something, and whether all that it asked holds.
#[derive(Clone, Copy)]
struct Judged {
    session: Session,
    asked: bool,
    good: bool,
}

impl Judged {
    // A script is played, a colon sets the letter before it, and any other sign says what is expected.
    #[tactic(auto, using(std::proofs::lemmas::Bool::Decides::nat_tests), unfolding(crate::specs::Code::Cases::after_word, crate::specs::Code::Cases::asks, crate::specs::Code::Cases::is_right, crate::specs::Code::Cases::expected_at))]
    fn with_word(self, w: &[u8]) -> Judged
        ensures { result ≡ meant.judged self w.now }
    {
        let s = self.session;
        let Some((name, sign, behind)) = parts(w) else {
            return Judged {
                session: s.played(w),
                ..self
            };
        };
        let v = value(s, behind);
        if sign == b':' {
            return Judged {
                session: set(s, w[0], v),
                ..self
            };
        }
        let is_so = compares(sign, quantity(s, name), rounded(name, v));
        Judged {
            asked: true,
            good: self.good & is_so,
            ..self
        }
    }
}

// A case that asks nothing, or has a letter that stands for nothing, does not hold.
pub fn holds(line: &[u8]) -> bool
    ensures { result ≡ meant.case_holds line.now }
{
    let unjudged = Judged {
        session: Session::new(),
        asked: false,
        good: true,
    };
    let j = line
        .split(|b| *b == b' ')
        .fold(unjudged, |j, w| j.with_word(w));
    j.good & j.asked & j.session.known
}
