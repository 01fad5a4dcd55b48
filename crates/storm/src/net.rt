use std::alloc::{AllocError, Global};
use std::collections::VecDeque;
use system::Party;
use wire::Message;

// So many messages are under way at most: the oldest are lost.
const MOST_LETTERS: usize = 48;

// A message under way.
#[derive(Clone, Copy)]
pub struct Letter {
    pub to: Party,
    pub message: Message,
    // the server's clock when it was sent
    pub sent: u64,
    // how often it was brought
    pub brought: u64,
}

// The messages under way, the oldest first.
#[derive(Drop)]
pub struct Net {
    letters: VecDeque<Letter>,
}

impl Net {
    pub fn new(heap: Global) -> Net {
        Net {
            letters: VecDeque::new(heap),
        }
    }

    pub fn len(&self) -> usize {
        self.letters.len()
    }

    pub fn get(&self, i: usize) -> Option<Letter> {
        self.letters.get(i).copied()
    }

    // Takes a message up, and tells which was lost for it.
    pub fn put(&mut self, letter: Letter) -> Result<Option<Letter>, AllocError> {
        let lost = if self.letters.len() >= MOST_LETTERS {
            self.letters.pop_front()
        } else {
            None
        };
        self.letters.push_back(letter)?;
        Ok(lost)
    }

    pub fn remove(&mut self, i: usize) {
        let _letter = self.letters.remove(i);
    }

    // The message was brought, and stays.
    pub fn keep(&mut self, i: usize) {
        if let Some(letter) = self.letters.get_mut(i) {
            letter.brought = letter.brought.saturating_add(1);
        }
    }
}
