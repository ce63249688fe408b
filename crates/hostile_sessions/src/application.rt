//! The application of a card that acts on numbered commands, and may ask for a size or for time before it replies.

use session_laws::{AskingHost, HostTurn};

/// How many octets a command has.
pub(crate) const COMMAND: usize = 5;

/// How many octets a reply has, more than one block takes: zeros, and at the end a number and the status bytes.
pub(crate) const REPLY: usize = 60;

/// Returns the command with this number. It has a sum, so that other octets are hardly ever a command.
pub(crate) fn command_of(number: u8) -> [u8; COMMAND] {
    [0x00, 0xB0, number, number ^ 0x5A, 0x00]
}

/// Returns the number of a command.
fn number_of(command: &[u8]) -> Option<u8> {
    match command {
        [0x00, 0xB0, number, sum, 0x00] if *sum == *number ^ 0x5A => Some(*number),
        _ => None,
    }
}

/// Returns the reply to the command with this number.
pub(crate) fn reply_of(number: u8) -> [u8; REPLY] {
    let mut reply = [0; REPLY];
    reply[REPLY - 3] = number;
    reply[REPLY - 2] = 0x6A;
    reply[REPLY - 1] = 0x82;
    reply
}

/// The card's application.
#[derive(Drop)]
pub(crate) struct Application {
    /// The least number that the next command may have.
    next: u8,
    /// How many turns were about commands that nobody sent, or that were acted on before, or about nothing granted.
    pub(crate) wrong: u32,
    /// How many requests about the present command are still to come.
    requests: u8,
    /// Whether the last turn was a request.
    has_asked: bool,
    reply: [u8; REPLY],
}

impl Application {
    /// Returns the application of a card that was just reset.
    pub(crate) fn new() -> Application {
        Application {
            next: 0,
            wrong: 0,
            requests: 0,
            has_asked: false,
            reply: [0; REPLY],
        }
    }

    /// Asks for a size and for time in turn, and then replies.
    fn turn(&mut self) -> HostTurn {
        self.has_asked = self.requests > 0;
        if self.requests == 0 {
            return HostTurn::Reply;
        }
        self.requests -= 1;
        if self.requests == 1 {
            HostTurn::AskIfs(self.next.saturating_add(1))
        } else {
            HostTurn::MoreTime(self.next)
        }
    }
}

impl AskingHost for Application {
    ghost served = { λ _ _ _. Unit {0} };

    ghost reply = { λ host. host.reply };

    fn act(&mut self, command: &[u8]) -> HostTurn {
        match number_of(command) {
            Some(number) if number >= self.next => {
                self.next = number.saturating_add(1);
                self.requests = number % 4;
                self.reply = reply_of(number);
            }
            _ => self.wrong = self.wrong.saturating_add(1),
        }
        self.turn()
    }

    fn go_on(&mut self, command: &[u8]) -> HostTurn {
        match number_of(command) {
            Some(number) if number.saturating_add(1) == self.next && self.has_asked => {}
            _ => self.wrong = self.wrong.saturating_add(1),
        }
        self.turn()
    }

    fn reply(&self) -> &[u8] {
        &self.reply
    }
}
