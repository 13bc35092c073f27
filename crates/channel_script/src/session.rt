// A channel between two calls, and the calls.
ghost use Rattle.std.specs.Prelude.{◌≡◌};
ghost use Rattle.channel_model.specs.Returns.{returned};
ghost use Rattle.channel_script.specs.Code.Playing as meant;

use crate::block::{no_lists, run_block};
use crate::call::Call;
use crate::letters::NoLetter;
use crate::place::Place;
use channel_control::assign::assign;
use channel_control::figures::figures;
use channel_control::release::release;
use channel_model::{Answer, Carriers, Channel, Refused, Settings, number_and_channel};
use channel_open::open;

// A block to come: its flag, how many numbers its lists and its window memory have, and what stands in them. The first list begins with re and
// im, the second with other; all else in the lists is fill. With jumps the first list has 4,096 samples that no tracker follows.
#[derive(Clone, Copy)]
pub struct Lists {
    pub flag: u64,
    pub first: usize,
    pub second: usize,
    pub windows: usize,
    pub re: f32,
    pub im: f32,
    pub other: f32,
    pub fill: f32,
    pub jumps: bool,
}

// What is set for the calls to come.
#[derive(Clone, Copy)]
pub struct Plan {
    pub settings: Settings,
    pub carriers: Carriers,
    pub lists: Lists,
    // The tracker whose values are set.
    pub place: Place,
}

// What the calls so far showed.
#[derive(Clone, Copy)]
pub struct Seen {
    // The number that the last open or assign answered.
    pub number: u64,
    // What the last block answered, the one before it, and one that is held.
    pub answer: Answer,
    pub before: Answer,
    pub held: Answer,
    // The lock marks of up to nine blocks as decimal digits, the first one highest.
    pub marks: u64,
    // What the last block left of re, im and the first fill of the second list, and whether it changed the window memory.
    pub re: f32,
    pub im: f32,
    pub other: f32,
    pub touched: bool,
    // Figures that were remembered.
    pub figures: [f32; 12],
}

// In parts, so that a function takes no more than it needs.
#[derive(Clone, Copy)]
pub struct Session {
    // Whether every letter so far stood for something. A mark: the letters behind one that did not are played all the same.
    pub known: bool,
    pub plan: Plan,
    pub seen: Seen,
    pub channel: Channel,
}

// A carrier at 40,000 samples a second, where a fade lasts as many blocks as seconds.
// Not by the settings of a refused open or a Default, which differ in rate and fade: the text of the cases says all nine itself.
fn first_settings() -> Settings
    ensures { result ≡ meant.first_settings }
{
    Settings {
        rate: 40000,
        factor: 1,
        modulation: 0,
        adaptive: false,
        dual_lock: false,
        bank: false,
        two: false,
        fade: 5,
        ratio: 1.0,
    }
}

#[tactic(auto, using(crate::proofs::Numbers::target))]
fn first_carriers() -> Carriers
    ensures { result ≡ meant.first_carriers }
{
    Carriers {
        nominal: 0.0,
        target: 137500000.0,
        target2: 0.0,
        frequency2: 0.0,
    }
}

fn first_plan() -> Plan
    ensures { result ≡ meant.first_plan }
{
    Plan {
        settings: first_settings(),
        carriers: first_carriers(),
        lists: no_lists(0),
        place: Place::Pll,
    }
}

impl Seen {
    fn nothing(number: u64) -> Seen
        ensures { result ≡ meant.nothing_seen number }
    {
        let answer = Answer::default();
        Seen {
            number,
            answer,
            before: answer,
            held: answer,
            marks: 0,
            re: 0.0,
            im: 0.0,
            other: 0.0,
            touched: false,
            figures: [0.0; 12],
        }
    }
}

impl Session {
    // Before the first call: a channel that was opened with the settings above.
    #[tactic(auto, unfolding(crate::specs::Code::Playing::first_session))]
    pub fn new() -> Session
        ensures { result ≡ meant.first_session }
    {
        let plan = first_plan();
        let opened = open(plan.settings);
        let (number, channel) = number_and_channel(&opened);
        Session {
            known: true,
            plan,
            seen: Seen::nothing(number),
            channel: *channel,
        }
    }

    // The channel that open or assign returned, and its number.
    fn returned(&mut self, r: Result<Channel, Refused>)
        ensures { self.new ≡ meant.after_return self.old (returned r) }
    {
        let (number, channel) = number_and_channel(&r);
        self.seen.number = number;
        self.channel = *channel;
    }

    #[tactic(auto, unfolding(crate::specs::Code::Playing::after_block))]
    fn fed(&mut self, l: Lists)
        ensures { self.new ≡ meant.after_block self.old l }
    {
        let left = run_block(self.channel, l);
        self.channel = left.channel;
        self.seen = left.seen_after(self.seen);
    }

    fn called(&mut self, call: Call)
        ensures { self.new ≡ meant.after_call self.old call }
    {
        match call {
            Call::Open => self.returned(open(self.plan.settings)),
            Call::Assign => self.returned(assign(self.channel, self.plan.carriers)),
            Call::Release => self.channel = release(self.channel),
            Call::Hold => self.seen.held = self.seen.answer,
            Call::Bring => self.seen.before = self.seen.held,
            Call::Remember => self.seen.figures = figures(self.channel),
            Call::Planned => self.fed(self.plan.lists),
            Call::Block(l) => self.fed(l),
        }
    }

    // A letter that stands for nothing is remembered.
    fn after(&mut self, call: Result<Call, NoLetter>)
        ensures { self.new ≡ meant.after self.old call }
    {
        match call {
            Ok(call) => self.called(call),
            Err(NoLetter) => self.known = false,
        }
    }

    // One call after the other.
    pub fn played(self, script: &[u8]) -> Session
        ensures { result ≡ meant.after_script self script.now }
    {
        let mut s = self;
        for letter in script {
            s.after(Call::try_from(*letter));
        }
        s
    }
}
