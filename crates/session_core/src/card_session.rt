//! The session of a card in one struct, over buffers that its caller lends.

ghost use Rattle.std.specs.Prelude.{◌≡◌, ◌≤◌, List, [], ℕ, length, take, replicate, IfErr};
ghost use Rattle.t1_core.specs.Terminal.{at_most};
ghost use Rattle.t1_core.specs.Card.{card_with, replies, more_time, ask_ifs};
ghost use Rattle.t1_core.specs.CardViews.{card_held, IsLentCard, IsBlank};
ghost use Rattle.line_core.specs.Bursts.{HasHeard};
ghost use Rattle.session_core.specs.declared.lines.Start.TheVariants.{Exchange};
ghost use Rattle.session_core.specs.Wire.{ruled, seen, fresh, forever, serves};
ghost use Rattle.session_core.specs.Lines.{stepped, first_of};
ghost use Rattle.session_core.specs.Terminals.{IsSent};
ghost use Rattle.session_core.specs.Cards.{TurnsTo, IsStepped};

use crate::action::Action;
use crate::card;
use crate::lines::Line;
use crate::progress::Rules;
use atr_core::T1Params;
use t1_core::{CardFault, LentCard};

/// The session of a card: the card, its line, and what the session knows of its own block and of its host.
///
/// The caller lends each call the two buffers of the card, and `out`, which has room for a block. The session's own
/// block is at the front of `out`, so the caller changes nothing there between two calls.
#[derive(Clone, Copy)]
pub struct CardSession {
    pub card: LentCard,
    pub line: Line,
    /// How many octets the session's own block has.
    pub own: u32,
    /// How many requests of the host about the present command the terminal granted.
    pub granted: usize,
    /// Whether the host also gets messages of fewer than four octets.
    pub takes_short: bool,
}

impl CardSession {
    /// Returns the session of a new card that hasn't used its line yet, and overwrites both buffers with 0.
    ///
    /// [`Setup::rules`](crate::Setup::rules) has the rules of the line.
    pub fn new(
        params: T1Params,
        rules: &Rules,
        takes_short: bool,
        command: &mut [u8],
        reply: &mut [u8],
    ) -> CardSession
        ensures card { card_held result.card command.new reply.new
            ≡ card_with (at_most (length command.old) (length reply.old)) params.ifsc }
        ensures fit { IsLentCard result.card (length command.new) (length reply.new) }
        ensures command { command.new ≡ replicate (length command.old) 0 }
        ensures reply { reply.new ≡ replicate (length reply.old) 0 }
        ensures rules { result.line.rules ≡ rules.now }
        ensures progress { seen result.line.progress ≡ fresh (ruled rules.now) }
        ensures burst { HasHeard result.line.framer [] }
        ensures host { (result.own ≡ 0) × (result.granted ≡ 0)
            × (result.takes_short ≡ takes_short) }
    {
        CardSession {
            card: LentCard::begin(params, command, reply),
            line: Line::new(rules),
            own: 0,
            granted: 0,
            takes_short,
        }
    }

    /// Begins a new session in place of this one, as at the next reset of the card, and overwrites both buffers with 0.
    pub fn begin(
        &mut self,
        params: T1Params,
        rules: &Rules,
        takes_short: bool,
        command: &mut [u8],
        reply: &mut [u8],
    )
        ensures card { card_held self.new.card command.new reply.new
            ≡ card_with (at_most (length command.old) (length reply.old)) params.ifsc }
        ensures fit { IsLentCard self.new.card (length command.new) (length reply.new) }
        ensures command { command.new ≡ replicate (length command.old) 0 }
        ensures reply { reply.new ≡ replicate (length reply.old) 0 }
        ensures rules { self.new.line.rules ≡ rules.now }
        ensures progress { seen self.new.line.progress ≡ fresh (ruled rules.now) }
        ensures burst { HasHeard self.new.line.framer [] }
        ensures host { (self.new.own ≡ 0) × (self.new.granted ≡ 0)
            × (self.new.takes_short ≡ takes_short) }
    {
        self.card = LentCard::begin(params, command, reply);
        self.line.begin(rules);
        self.own = 0;
        self.granted = 0;
        self.takes_short = takes_short;
    }

    /// Begins to serve the terminal, or goes on after the line failed.
    pub fn serve(&mut self, now: u64) -> Action
        ensures own { self.new.own ≡ 0 }
        ensures line { (burst : List ℕ) → HasHeard self.old.line.framer burst
            → IsSent (serves (ruled self.old.line.rules) (first_of self.old.line forever) burst now)
            self.old.line.rules 0 self.new.line result }
        ensures card { self.new.card ≡ self.old.card }
        ensures host { (self.new.granted ≡ self.old.granted)
            × (self.new.takes_short ≡ self.old.takes_short) }
    {
        card::serve(&mut self.line, &mut self.own, now)
    }

    /// Replies for the host.
    pub fn reply(
        &mut self,
        command: &[u8],
        reply: &mut [u8],
        octets: &[u8],
        now: u64,
        out: &mut [u8],
    ) -> Result<Action, CardFault>
        requires room { 258 ≤ length out.old }
        requires fit { IsLentCard self.old.card (length command.now) (length reply.old) }
        ensures fit { IsLentCard self.new.card (length command.now) (length reply.new) }
        ensures turn { (burst : List ℕ) → HasHeard self.old.line.framer burst
            → TurnsTo (card_held self.old.card command.now reply.old) (replies octets.now) Exchange
            self.old.line.rules (seen self.old.line.progress) burst now
            (card_held self.new.card command.now reply.new) self.new.line self.old.own self.new.own out.old out.new
            result }
        ensures host { (self.new.granted ≡ self.old.granted)
            × (self.new.takes_short ≡ self.old.takes_short) }
        ensures refused { IfErr result (λ _. (self.new ≡ self.old) × (reply.new ≡ reply.old)) }
        ensures blank { IsBlank self.old.card command.now → IsBlank self.new.card command.now }
    {
        card::reply(
            &mut self.card,
            &mut self.line,
            &mut self.own,
            command,
            reply,
            octets,
            now,
            out,
        )
    }

    /// Asks the terminal for more time, any multiple of the waiting time.
    pub fn more_time(
        &mut self,
        command: &[u8],
        reply: &[u8],
        multiple: u8,
        now: u64,
        out: &mut [u8],
    ) -> Result<Action, CardFault>
        requires room { 258 ≤ length out.old }
        requires fit { IsLentCard self.old.card (length command.now) (length reply.now) }
        ensures fit { IsLentCard self.new.card (length command.now) (length reply.now) }
        ensures turn { (burst : List ℕ) → HasHeard self.old.line.framer burst
            → TurnsTo (card_held self.old.card command.now reply.now) (more_time multiple) Exchange
            self.old.line.rules (seen self.old.line.progress) burst now
            (card_held self.new.card command.now reply.now) self.new.line self.old.own self.new.own out.old out.new
            result }
        ensures host { (self.new.granted ≡ self.old.granted)
            × (self.new.takes_short ≡ self.old.takes_short) }
        ensures refused { IfErr result (λ _. self.new ≡ self.old) }
        ensures blank { IsBlank self.old.card command.now → IsBlank self.new.card command.now }
    {
        card::more_time(
            &mut self.card,
            &mut self.line,
            &mut self.own,
            command,
            reply,
            multiple,
            now,
            out,
        )
    }

    /// Asks the terminal to send fields of at most so many octets.
    pub fn ask_ifs(
        &mut self,
        command: &[u8],
        reply: &[u8],
        size: u8,
        now: u64,
        out: &mut [u8],
    ) -> Result<Action, CardFault>
        requires room { 258 ≤ length out.old }
        requires fit { IsLentCard self.old.card (length command.now) (length reply.now) }
        ensures fit { IsLentCard self.new.card (length command.now) (length reply.now) }
        ensures turn { (burst : List ℕ) → HasHeard self.old.line.framer burst
            → TurnsTo (card_held self.old.card command.now reply.now) (ask_ifs size) Exchange
            self.old.line.rules (seen self.old.line.progress) burst now
            (card_held self.new.card command.now reply.now) self.new.line self.old.own self.new.own out.old out.new
            result }
        ensures host { (self.new.granted ≡ self.old.granted)
            × (self.new.takes_short ≡ self.old.takes_short) }
        ensures refused { IfErr result (λ _. self.new ≡ self.old) }
        ensures blank { IsBlank self.old.card command.now → IsBlank self.new.card command.now }
    {
        card::ask_ifs(
            &mut self.card,
            &mut self.line,
            &mut self.own,
            command,
            reply,
            size,
            now,
            out,
        )
    }

    /// Takes what happened on the line, by its number, and returns what to do next.
    pub fn step(
        &mut self,
        command: &mut [u8],
        reply: &mut [u8],
        event: u8,
        octets: &[u8],
        now: u64,
        out: &mut [u8],
    ) -> Result<Action, CardFault>
        requires room { 258 ≤ length out.old }
        requires fit { IsLentCard self.old.card (length command.old) (length reply.old) }
        ensures fit { IsLentCard self.new.card (length command.new) (length reply.new) }
        ensures step { (burst : List ℕ) → HasHeard self.old.line.framer burst
            → IsStepped
            (stepped event (ruled self.old.line.rules) (seen self.old.line.progress) burst octets.now now
            (take self.old.own out.old)).next
            (stepped event (ruled self.old.line.rules) (seen self.old.line.progress) burst octets.now now
            (take self.old.own out.old))
            self.old.line.rules (card_held self.old.card command.old reply.old) self.old.takes_short self.old.granted
            self.new.granted now (card_held self.new.card command.new reply.new) self.new.line self.old.own self.new.own
            out.old out.new result }
        ensures host { self.new.takes_short ≡ self.old.takes_short }
        ensures blank { IsBlank self.old.card command.old → IsBlank self.new.card command.new }
    {
        card::step(
            &mut self.card,
            &mut self.line,
            &mut self.own,
            &mut self.granted,
            self.takes_short,
            command,
            reply,
            event,
            octets,
            now,
            out,
        )
    }
}
