// One ball on the lane: the pins that stand before and after it as words, pin j in bit j.
ghost use Rattle.std.specs.Prelude.{◌≡◌, ◌≤◌, ◌<◌, MatchResult, OnErr};
ghost use Rattle.basics.specs.Refusals.{accepted, refused};
ghost use Rattle.network.specs.Threshold.{ones_of};
ghost use Rattle.refusals.specs.Numbers.{number_of};
ghost use Rattle.scorer_theory.specs.Rules.{has_raised_pin, felled_by, finished, ball};
ghost use Rattle.scorer_ball.specs.Words.{first_lane, pins_in, game_of, OnLane, SameRack, BallThrown, BallPlayed};

use crate::Lane;
use refusals::Refusal;

// How many of ten pins stand.
fn standing(pins: u64) -> u32
    requires { pins < 1024 }
    ensures { result ≡ ones_of (pins_in pins) }
{
    pins.count_ones()
}

// Whether a pin stands after a ball without having stood before it.
fn raises(before: u64, after: u64) -> bool
    requires { after < 1024 }
    ensures { result ≡ has_raised_pin (pins_in before) (pins_in after) }
{
    (before & after) != after
}

// How many pins a ball felled.
pub fn felled_by(before: u64, after: u64) -> u8
    requires { SameRack before after }
    ensures { result ≡ felled_by (pins_in before) (pins_in after) }
{
    (standing(before) - standing(after)) as u8
}

impl Lane {
    // The lane before a game's first ball.
    pub fn start() -> Lane
        ensures { result ≡ first_lane }
    {
        Lane {
            frame: 1,
            balls: 0,
            down: 0,
            rack: 1023,
        }
    }

    // Whether the frame is finished.
    fn is_finished(&self) -> bool
        ensures { result ≡ finished self.now.frame self.now.balls self.now.down }
    {
        if self.frame < 10 {
            (2 <= self.balls) | (self.down == 10)
        } else {
            (3 <= self.balls) | ((2 <= self.balls) & (self.down < 10))
        }
    }

    // Whether a ball may have left these pins. Refusals: 28 a ball after the game's end, 29 a pin that stands again.
    pub fn allows(&self, after: u64) -> Result<(), Refusal>
        requires { after < 1024 }
        ensures { MatchResult result (λ _. ball (game_of self.now) (pins_in after) ≡ accepted (pins_in after)) (λ e. ball (game_of self.now) (pins_in after) ≡ refused (number_of e)) }
    {
        if 10 < self.frame {
            return Err(Refusal::BallAfterTheEnd);
        }
        if raises(self.rack, after) {
            return Err(Refusal::PinUpAgain);
        }
        Ok(())
    }

    // A ball that felled so many pins and left these.
    pub fn advance(&mut self, felled: u8, after: u64)
        requires on_lane { OnLane self.old }
        requires frame_bound { (self.old.frame ≤ 10) × (after < 1024) }
        ensures { BallThrown self.old felled after self.new }
    {
        self.balls += 1;
        self.down += usize::from(felled);
        if self.is_finished() {
            *self = Lane {
                frame: self.frame + 1,
                ..Lane::start()
            };
        } else if standing(after) == 0 {
            self.rack = 1023;
        } else {
            self.rack = after;
        }
    }

    // A ball that left these pins: how many it felled. Refusals: 28 a ball after the game's end, 29 a pin that stands again.
    pub fn throw(&mut self, after: u64) -> Result<u8, Refusal>
        requires on_lane { OnLane self.old }
        requires ten_pins { after < 1024 }
        ensures played { MatchResult result (λ felled. BallPlayed self.old felled after self.new) (λ e. ball (game_of self.old) (pins_in after) ≡ refused (number_of e)) }
        ensures kept { OnErr result (self.new ≡ self.old) }
    {
        self.allows(after)?;
        let felled = felled_by(self.rack, after);
        self.advance(felled, after);
        Ok(felled)
    }
}
