//! The network of papers 01 and 02, written a second time and otherwise: two lists. What an order
//! or a delivery comes to is found first, with the network untouched; then the step is taken, if it
//! is not refused.
use crate::answer::{Answer, Outcome, Refusal};
use crate::owners::Owners;
use crate::rules::{Kind, Message, Node, Status};
use arrayvec::ArrayVec;
use std::iter;

/// What an order or a delivery does: what a node is from then on, what it posts, and the outcome.
#[derive(Clone, Copy)]
pub struct Step {
    node: u8,
    after: Node,
    posts: [Option<Message>; 2],
    pub outcome: Outcome,
}

impl Step {
    pub fn request(&self) -> Option<&Message> {
        self.posts
            .iter()
            .flatten()
            .find(|message| message.kind == Kind::SetR)
    }
}

// Going up from key a, and on from 0 past the highest, d comes before b: d is in [a, b).
fn holds(a: u32, b: u32, d: u32) -> bool {
    a == b || d.wrapping_sub(a) < b.wrapping_sub(a)
}

#[derive(Default, Drop)]
pub struct Network {
    nodes: ArrayVec<Node, 32>,
    messages: ArrayVec<Message, 64>,
    posted: usize,
    granted: usize,
    denied: usize,
    passed_over: usize,
    owners: Owners,
}

impl Network {
    pub fn messages(&self) -> &[Message] {
        self.messages.as_slice()
    }

    /// How many nodes are declared.
    pub fn declared_nodes(&self) -> u8 {
        self.nodes.len() as u8
    }

    /// How many messages wait.
    pub fn waiting(&self) -> u8 {
        self.messages.len() as u8
    }

    pub fn is_full(&self) -> bool {
        self.messages.is_full()
    }

    /// How many messages were ever posted.
    pub fn posted(&self) -> usize {
        self.posted
    }

    /// How often a drain passed over a place whose delivery is refused.
    pub fn passed_over(&self) -> usize {
        self.passed_over
    }

    /// A node that is not declared is as one that is out.
    pub fn node(&self, number: u8) -> Node {
        self.nodes
            .get(usize::from(number))
            .copied()
            .unwrap_or_default()
    }

    /// The number of a node that is declared.
    pub(crate) fn declared(&self, number: u8) -> Result<u8, Refusal> {
        if usize::from(number) < self.nodes.len() {
            Ok(number)
        } else {
            Err(Refusal::NotDeclared)
        }
    }

    pub fn awaits(&self, node: u8, kind: Kind) -> bool {
        self.messages.iter().any(|message| message.addressee == node && message.kind == kind)
    }

    pub fn is_inserted(&self, node: u8) -> bool {
        match self.node(node).status {
            Status::Out => false,
            Status::Ins => self.awaits(node, Kind::SetRAck),
            Status::In => true,
            Status::Del => !self.awaits(node, Kind::SetRAck),
        }
    }

    fn are_all_out(&self) -> bool {
        self.nodes.iter().all(|node| node.status == Status::Out)
    }

    /// Each node that waits for an answer has its request or an answer to it under way, one and no
    /// more, and no other node has one.
    pub fn has_exchanges_by_status(&self) -> bool {
        (0..self.declared_nodes()).all(|node| {
            let is_its = |message: &&Message| message.is_exchange_of(node);
            let waits = matches!(self.node(node).status, Status::Ins | Status::Del);
            self.messages.iter().filter(is_its).count() == usize::from(waits)
        })
    }

    /// Three messages were posted for each grant, two for each denial and one for each request that
    /// is under way.
    pub fn accounts_balance(&self) -> bool {
        let is_request = |message: &&Message| message.kind == Kind::SetR;
        let requests = self.messages.iter().filter(is_request).count();
        let answered = self
            .granted
            .saturating_mul(3)
            .saturating_add(self.denied.saturating_mul(2));
        self.posted == answered.saturating_add(requests)
    }

    /// How many keys passed from one node to another.
    pub fn passed_keys(&self) -> usize {
        self.owners.passed()
    }

    // Every inserted node names the owner told of this node's key; and an owner is told exactly if a
    // node is inserted.
    fn is_owned_as_told(&self, node: u8) -> bool {
        let told = self.owners.of(node);
        let key = self.node(node).key;
        let mut starts = (0..self.declared_nodes()).filter(|start| self.is_inserted(*start));
        let is_anybody_asked = (0..self.declared_nodes()).any(|start| self.is_inserted(start));
        told.is_some() == is_anybody_asked
            && starts.all(|start| self.owner_from(start, key).map(|(_, owner)| owner) == told)
    }

    /// Who owns which key is as told by what came of the calls.
    pub fn owners_are_as_told(&self) -> bool {
        self.owners.are_all_passed_on_by_their_owners()
            && (0..self.declared_nodes()).all(|node| self.is_owned_as_told(node))
    }

    // The owner told of a key that no node has: that of the next key below it, round the end, since
    // an interval begins with a key of a node.
    fn told_owner_of(&self, key: u32) -> Option<u8> {
        let below = (0..self.declared_nodes()).min_by_key(|node| key.wrapping_sub(
            self.node(*node).key,
        ))?;
        self.owners.of(below)
    }

    pub(crate) fn declare(&mut self, key: u32) -> Result<Answer, Refusal> {
        if self.nodes.is_full() {
            return Err(Refusal::NoRoom);
        }
        if self.nodes.iter().any(|node| node.key == key) {
            return Err(Refusal::KeyTaken);
        }
        let node = self.declared_nodes();
        let owner = self.told_owner_of(key);
        self.owners.add(owner);
        self.nodes.push(Node {
            key,
            ..Node::default()
        });
        Ok(Answer::Declared { node, key })
    }

    pub fn creation(&self, node: u8) -> Result<Step, Refusal> {
        if !self.are_all_out() {
            return Err(Refusal::NotAllOut);
        }
        if self.awaits(node, Kind::SetL) {
            return Err(Refusal::NoticeWaits);
        }
        Ok(Step {
            node,
            after: Node {
                key: self.node(node).key,
                status: Status::In,
                left: node,
                right: node,
                ..Node::default()
            },
            posts: [None, None],
            outcome: Outcome::Created,
        })
    }

    // A request of a node, which waits for its answer with this status and these links.
    fn request(&self, node: u8, after: Node, request: Message) -> Result<Step, Refusal> {
        if self.is_full() {
            return Err(Refusal::QueueFull);
        }
        Ok(Step {
            node,
            after,
            posts: [Some(request), None],
            outcome: Outcome::Waiting,
        })
    }

    /// The key of the node is in (key of left, key of right): in [.., ..), and not the left one's.
    pub fn lies_between(&self, node: u8, left: u8, right: u8) -> bool {
        let key = self.node(node).key;
        let from = self.node(left).key;
        key != from && holds(from, self.node(right).key, key)
    }

    pub fn joining(&self, node: u8, left: u8, right: u8) -> Result<Step, Refusal> {
        let joiner = self.node(node);
        if joiner.status != Status::Out {
            return Err(Refusal::NotOut);
        }
        if self.awaits(node, Kind::SetL) {
            return Err(Refusal::NoticeWaits);
        }
        if !self.lies_between(node, left, right) {
            return Err(Refusal::NotBetween);
        }
        let after = Node {
            status: Status::Ins,
            left,
            right,
            ..joiner
        };
        let request = Message {
            kind: Kind::SetR,
            sender: node,
            addressee: left,
            link: node,
            expected: right,
            number: joiner.left_number,
        };
        self.request(node, after, request)
    }

    pub fn leaving(&self, node: u8) -> Result<Step, Refusal> {
        let leaver = self.node(node);
        if leaver.status != Status::In {
            return Err(Refusal::NotIn);
        }
        if leaver.right == node {
            return Ok(Step {
                node,
                after: leaver.with_status(Status::Out),
                posts: [None, None],
                outcome: Outcome::Out,
            });
        }
        let number = leaver
            .right_number
            .checked_add(1)
            .ok_or(Refusal::LastNumber)?;
        let request = Message {
            kind: Kind::SetR,
            sender: node,
            addressee: leaver.left,
            link: leaver.right,
            expected: node,
            number,
        };
        self.request(node, leaver.with_status(Status::Del), request)
    }

    pub fn delivery(&self, place: usize) -> Result<Step, Refusal> {
        let message = self.messages.get(place).ok_or(Refusal::NoMessage)?;
        let node = self.node(message.addressee);
        let outcome = node.outcome(message);
        if outcome == Outcome::Granted && self.is_full() {
            return Err(Refusal::QueueFull);
        }
        Ok(Step {
            node: message.addressee,
            after: node.after(message, outcome),
            posts: node.posts(message, outcome),
            outcome,
        })
    }

    fn post(&mut self, message: Message) {
        if self.messages.try_push(message).is_ok() {
            self.posted = self.posted.saturating_add(1);
        }
    }

    pub(crate) fn take(&mut self, step: Step) -> Outcome {
        if let Some(node) = self.nodes.get_mut(usize::from(step.node)) {
            *node = step.after;
        }
        for message in step.posts.iter().flatten() {
            self.post(*message);
        }
        match step.outcome {
            Outcome::Granted => self.granted = self.granted.saturating_add(1),
            Outcome::Denied => self.denied = self.denied.saturating_add(1),
            Outcome::Created => self.owners.give_all(Some(step.node)),
            Outcome::Out => self.owners.give_all(None),
            _ => {}
        }
        step.outcome
    }

    // A granted request passes keys on: to a joiner those from its own up to that of its right link,
    // which the granter had, and from a leaver all that it has, to the granter.
    fn pass_keys(&mut self, request: &Message) {
        let Message {
            sender,
            addressee,
            ..
        } = *request;
        let asker = self.node(sender);
        let end = self.node(asker.right).key;
        for node in 0..self.declared_nodes() {
            if request.is_join() {
                if holds(asker.key, end, self.node(node).key) {
                    self.owners.pass(node, addressee, sender);
                }
            } else if self.owners.of(node) == Some(sender) {
                self.owners.pass(node, sender, addressee);
            }
        }
    }

    pub(crate) fn deliver(&mut self, place: usize) -> Result<Outcome, Refusal> {
        let step = self.delivery(place)?;
        let message = self.messages.pop_at(place);
        let outcome = self.take(step);
        if let (Outcome::Granted, Some(request)) = (outcome, message) {
            self.pass_keys(&request);
        }
        Ok(outcome)
    }

    // Delivers at the first place from 0 that does not refuse, and says whether there was one.
    fn deliver_lowest(&mut self) -> bool {
        let open = (0..self.messages.len()).find(|place| self.delivery(*place).is_ok());
        let Some(place) = open else {
            return false;
        };
        self.passed_over = self.passed_over.saturating_add(place);
        self.deliver(place).is_ok()
    }

    // What a drain says that has made so many deliveries.
    fn ran(&self, deliveries: usize) -> Answer {
        Answer::Ran {
            deliveries,
            left: self.messages.len(),
        }
    }

    // A budget of 0 is no limit. The range has an end all the same, far past the last delivery that
    // there can be.
    pub(crate) fn drain(&mut self, budget: u16) -> Answer {
        let allowed = if budget == 0 { u16::MAX } else { budget };
        let deliveries = (0..allowed).take_while(|_| self.deliver_lowest()).count();
        self.ran(deliveries)
    }

    pub(crate) fn peek(&self) -> Answer {
        self.ran(0)
    }

    /// The owner of a serial, and how many hops lead to it from a start.
    pub fn owner_from(&self, start: u8, serial: u32) -> Option<(usize, u8)> {
        iter::successors(Some(start), |node| Some(self.node(*node).right))
            .take(self.nodes.len())
            .enumerate()
            .find(|&(_, at)| {
                let node = self.node(at);
                holds(node.key, self.node(node.right).key, serial)
            })
    }

    /// The node that so many right links lead to from a start.
    pub fn after_hops(&self, start: u8, hops: u8) -> u8 {
        (0..hops).fold(start, |at, _| self.node(at).right)
    }

    pub(crate) fn owner(&self, start: u8, serial: u32) -> Result<Answer, Refusal> {
        if !self.is_inserted(start) {
            return Err(Refusal::NotInserted);
        }
        let (hops, node) = self.owner_from(start, serial).ok_or(Refusal::NotFound)?;
        Ok(Answer::Owner { node, hops })
    }
}
