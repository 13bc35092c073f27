// A block's answer as the numbers of a line.
use crate::standing::Words;
use channel_model::Answer;
use vectors::line::Word;

impl Words<11> for Answer {
    ghost use Rattle.channel_words.specs.Code.Answers.{answer_words};

    ghost numbers = { answer_words };

    #[tactic(auto, unfolding(crate::specs::Code::Answers::answer_words))]
    fn words(self) -> [u64; 11] {
        [
            self.refusal,
            self.locked.pattern(),
            self.tracker,
            self.in_fade.pattern(),
            self.fade_count,
            self.ended.pattern(),
            self.phase.pattern(),
            self.frequency.pattern(),
            self.snr.pattern(),
            self.electrons.pattern(),
            self.metric.pattern(),
        ]
    }
}
