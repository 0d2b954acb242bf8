//! What an operator's lines are replied and which epochs they publish, by a plain fold.
use super::drawing::{History, Order, State};
use std::alloc::{AllocError, Global};

/// What was sent and replied, the states of all arcs in each epoch, those of the last one, and the changes that are pending.
#[derive(Drop)]
pub(super) struct Replay {
    pub sent: String,
    pub replies: String,
    pub epochs: Vec<Vec<State>>,
    states: Vec<State>,
    pending: Vec<(u32, State)>,
}

impl Replay {
    pub fn of(alloc: Global, history: &History) -> Result<Replay, AllocError> {
        let mut states = Vec::new(alloc);
        for arc in &history.arcs {
            states.push(arc.state)?;
        }
        let mut epochs = Vec::new(alloc);
        epochs.push(states.clone()?)?;
        let mut replay = Replay {
            sent: String::new(alloc),
            replies: String::new(alloc),
            epochs,
            states,
            pending: Vec::new(alloc),
        };
        for order in &history.orders {
            replay.obey(alloc, history.first, order)?;
        }
        Ok(replay)
    }

    /// One line more.
    fn obey(&mut self, alloc: Global, first: u32, order: &Order) -> Result<(), AllocError> {
        match *order {
            Order::Change { arc, state } => {
                let line = match state {
                    Some(weights) => {
                        let (one, two) = (weights[0], weights[1]);
                        format!(in alloc; "s {arc} {one} {two}\n")?
                    }
                    None => format!(in alloc; "x {arc}\n")?,
                };
                self.sent.push_str(&line)?;
                self.change(arc, state)
            }
            Order::Drop => {
                self.sent.push_str("drop\n")?;
                self.pending.clear();
                self.replies.push_str("ok\n")
            }
            Order::Publish => {
                self.sent.push_str("publish\n")?;
                let number = u64::from(first) + self.epochs.len() as u64;
                let line = format!(in alloc; "k {number}\n")?;
                self.replies.push_str(&line)?;
                self.publish()
            }
        }
    }

    fn change(&mut self, arc: u32, state: State) -> Result<(), AllocError> {
        if arc == 0 || arc as usize > self.states.len() {
            self.replies.push_str("x arc\n")
        } else if state == Some([0, 0]) {
            self.replies.push_str("x zero\n")
        } else {
            self.pending.push((arc - 1, state))?;
            self.replies.push_str("ok\n")
        }
    }

    fn publish(&mut self) -> Result<(), AllocError> {
        for &(place, state) in &self.pending {
            if let Some(old) = self.states.get_mut(place as usize) {
                *old = state;
            }
        }
        self.pending.clear();
        self.epochs.push(self.states.clone()?)?;
        Ok(())
    }
}
