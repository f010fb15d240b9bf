//! Who owns the nodes' keys, told by what came of the calls as request (iv) of paper 02 has it, and
//! by no walk: what a walk along right links finds must be the same. Keys are enough: any other
//! serial has the owner of the next key below it, round the end.
use arrayvec::ArrayVec;

/// Who owns the key of each node, if anybody does.
#[derive(Default, Drop)]
pub(crate) struct Owners {
    of_keys: ArrayVec<Option<u8>, 32>,
    passed: usize,
    strays: usize,
}

impl Owners {
    /// Who owns the key of this node.
    pub(crate) fn of(&self, node: u8) -> Option<u8> {
        self.of_keys.get(usize::from(node)).copied().flatten()
    }

    /// How often a key passed from one node to another.
    pub(crate) fn passed(&self) -> usize {
        self.passed
    }

    /// Whether each key that passed was passed on by its owner.
    pub(crate) fn are_all_passed_on_by_their_owners(&self) -> bool {
        self.strays == 0
    }

    /// One node more, whose key has this owner.
    pub(crate) fn add(&mut self, owner: Option<u8>) {
        let _ = self.of_keys.try_push(owner);
    }

    /// All keys are this node's, or nobody's.
    pub(crate) fn give_all(&mut self, to: Option<u8>) {
        for place in 0..self.of_keys.len() {
            if let Some(owner) = self.of_keys.get_mut(place) {
                *owner = to;
            }
        }
    }

    /// The key of this node passes from one to another.
    pub(crate) fn pass(&mut self, node: u8, from: u8, to: u8) {
        if self.of(node) != Some(from) {
            self.strays = self.strays.saturating_add(1);
        }
        if let Some(owner) = self.of_keys.get_mut(usize::from(node)) {
            *owner = Some(to);
        }
        self.passed = self.passed.saturating_add(1);
    }
}
