//! When a member fires.

/// Whether a member fires now. A follower fires only once the bus was silent from one empty line to
/// the next; what makes it wait again is a line by which its machine applied a firing.
#[derive(Clone, Copy, Debug)]
pub(crate) struct Lead {
    follows: bool,
    pub leads: bool,
    heard: bool,
}

impl Lead {
    pub fn new(follows: bool) -> Lead {
        Lead {
            follows,
            leads: !follows,
            heard: false,
        }
    }

    /// Lines were taken, by which firings were applied or not, and one of which was empty or not.
    pub fn hear(&mut self, has_grown: bool, has_empty: bool) {
        if has_grown {
            self.heard = true;
            self.leads = self.leads && !self.follows;
        }
        if has_empty {
            self.leads = self.leads || !self.heard;
            self.heard = false;
        }
    }
}
