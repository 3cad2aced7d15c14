//! A session that answers the lines of the generated script.

ghost use Rattle.std.specs.Prelude.{◌≡◌, ◌-◌, ◌++◌, ◌∷◌, [], IfOk, OnOk};
ghost use Rattle.generated_scripts.specs.Generated as spec;
ghost use Rattle.generated_scripts.specs.GeneratedLines as lines;

use crate::command_lines::{NewNode, node_line, register_line, token_line};
use crate::kinds::{AnswerKind, kind_of};
use cluster_terms::{ByteText, Memory, SmallList, Token};
use script_lang::labelled;
use script_session::{Session, TEXT_ROOM};
use std::alloc::Global;
use tcm_edges::SureStore;

/// The session after some lines, and the kinds of the answers to them. The value must be consumed, by `close`.
pub struct Generation {
    pub session: Session,
    pub kinds: SmallList<AnswerKind>,
}

impl Generation {
    /// The session before the first line.
    pub fn empty(alloc: Global) -> Result<Generation, Memory>
        ensures { IfOk result (λ generation. generation ≡ spec.nothing_generated) }
    {
        Ok(Generation {
            session: Session::empty(alloc)?,
            kinds: SmallList::empty(alloc),
        })
    }

    /// Consumes the session.
    pub fn close(self) {
        let Generation { session, kinds: _ } = self;
        session.close();
    }

    fn note(&mut self, kind: AnswerKind) -> Result<(), Memory>
        ensures kinds { OnOk result (self.new.kinds ≡ self.old.kinds ++ kind ∷ []) }
        ensures session { self.new.session ≡ self.old.session }
    {
        match self.kinds.push(kind) {
            Ok(()) => Ok(()),
            Err((_kind, memory)) => Err(memory),
        }
    }

    /// Answers a line. Without the name of a file a step fails only if memory runs out, and doesn't use the store that
    /// it gets.
    pub fn answer(&mut self, alloc: Global, line: &[u8]) -> Result<(), Memory>
        ensures { OnOk result (self.new ≡ spec.after_line self.old line.now) }
    {
        let mut store = SureStore::new(alloc);
        let mut text = ByteText::with_room(alloc, TEXT_ROOM)?;
        match self.session.step(line, None, &mut store, &mut text) {
            Ok(()) => self.note(kind_of(text.as_slice())),
            Err(_fault) => Err(Memory),
        }
    }

    /// Commits the register of a node.
    pub fn register(&mut self, alloc: Global, id: u64, node: &NewNode<'_>) -> Result<(), Memory>
        ensures { OnOk result (self.new ≡ spec.after_line self.old (lines.commit_line id
            (lines.register_words node.now.letter.now node.now.number node.now.dc node.now.rack))) }
    {
        let mut line = ByteText::with_room(alloc, TEXT_ROOM)?;
        register_line(id, node, &mut line)?;
        self.answer(alloc, line.as_slice())
    }

    /// Commits a word on a node and a token.
    pub fn commit_token(
        &mut self,
        alloc: Global,
        id: u64,
        word: &[u8],
        node: u64,
        token: Token,
    ) -> Result<(), Memory>
        ensures { OnOk result (self.new ≡ spec.after_line self.old
            (lines.commit_line id (lines.with_token word.now node token))) }
    {
        let mut line = ByteText::with_room(alloc, TEXT_ROOM)?;
        token_line(id, word, node, token, &mut line)?;
        self.answer(alloc, line.as_slice())
    }

    /// Commits a word on a node.
    pub fn commit_node(
        &mut self,
        alloc: Global,
        id: u64,
        word: &[u8],
        node: u64,
    ) -> Result<(), Memory>
        ensures { OnOk result (self.new ≡ spec.after_line self.old
            (lines.commit_line id (lines.on_node word.now node))) }
    {
        let mut line = ByteText::with_room(alloc, TEXT_ROOM)?;
        node_line(id, word, node, &mut line)?;
        self.answer(alloc, line.as_slice())
    }

    /// Hands the entry of an epoch to follower f.
    fn deliver(&mut self, alloc: Global, epoch: u64) -> Result<(), Memory>
        ensures { OnOk result (self.new ≡ spec.after_line self.old (lines.deliver_line epoch)) }
    {
        let mut line = ByteText::with_room(alloc, TEXT_ROOM)?;
        labelled(b"deliver f ", &epoch, &mut line)?;
        self.answer(alloc, line.as_slice())
    }

    /// Hands the entries of the epochs after `after` to follower f, from that of epoch `last` down.
    pub fn deliver_down(&mut self, alloc: Global, after: u64, last: u64) -> Result<(), Memory>
        ensures { OnOk result (self.new ≡ spec.after_lines self.old (lines.delivers after (last - after))) }
    {
        let mut epoch = last;
        while epoch > after {
            self.deliver(alloc, epoch)?;
            epoch -= 1;
        }
        Ok(())
    }
}
