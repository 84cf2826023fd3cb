// The numbers of a session.

ghost use Rattle.std.specs.Prelude.{◌≡◌, ◌≤◌};
ghost use Rattle.script_lang.specs.Loads.{next_state, drawn, first_state, transfer as transfer_at};

use crate::Action;

const FACTOR: u64 = 6_364_136_223_846_793_005;

const STEP: u64 = 1_442_695_040_888_963_407;

// The state from which the next number is drawn.
#[derive(Clone, Copy)]
pub struct Numbers {
    pub state: u64,
}

impl Numbers {
    pub fn new(seed: u64, session: u64) -> Self
        ensures { result.state ≡ first_state seed session }
    {
        Numbers {
            state: seed.wrapping_add(session),
        }
    }

    fn draw(&mut self) -> u64
        ensures state { self.new.state ≡ next_state self.old.state }
        ensures number { result ≡ drawn self.new.state }
    {
        self.state = self.state.wrapping_mul(FACTOR).wrapping_add(STEP);
        self.state / 8_589_934_592
    }

    // A transfer between two of the accounts.
    pub fn transfer(&mut self, accounts: u64) -> Action
        requires few { accounts ≤ 10000 }
        requires two { 2 ≤ accounts }
        ensures state { self.new.state ≡ next_state (next_state (next_state self.old.state)) }
        ensures transfer { result ≡ transfer_at accounts self.old.state }
    {
        let from = self.draw() % accounts;
        let to = (from + 1 + self.draw() % (accounts - 1)) % accounts;
        let amount = self.draw() % 10 + 1;
        Action::Move { from, to, amount }
    }
}
