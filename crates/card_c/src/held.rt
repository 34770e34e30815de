// What C's handle holds.
ghost use Rattle.std.specs.Prelude.{◌≡◌};

use crate::card_desk::CardDesk;
use crate::reply_octets::{LONGEST_REPLY, write_octets};
use crate::seat::{begin_anew, note, say, status_of};
use crate::status::{DONE, MUTE, NO_MEMORY, NO_TERMINAL, NO_WRITE, TOO_SHORT};
use apdu::Reply;
use arrayvec::ArrayVec;
use card::{Card, Outcome};
use card_link::CardLink;
use eeprom::Heap;
use line_bench::LineBench;
use scql_base::StatusWord;
use std::marker::Model;
use terminal::Terminal;

/// A card over its EEPROM, and its terminal, if it has one.
#[derive(Drop)]
pub struct Held {
    desk: CardDesk,
    terminal: Option<Box<Terminal, Heap>>,
}

impl Model for Held {
    ghost use Rattle.std.specs.Prelude.{option_map};
    ghost use Rattle.card_c.specs.HeldCard.{HeldCard, held_code};

    ghost Value = { HeldCard };

    ghost coded = { held_code };

    ghost view = { λ h. record { card = h.desk.card; bench = h.desk.bench; terminal = option_map (λ b. b.value) h.terminal } };
}

impl Held {
    ghost use Rattle.std.specs.Prelude.{◌≡◌, length, None};
    ghost use Rattle.card.specs.Card.{IsReady};
    ghost use Rattle.line_bench.specs.LineBench.{chip_of, image_of, text_of, writes_of};
    ghost use Rattle.card_c.specs.Calls.{AnswersCall, CarriesOut, CopiesImage, CopiesText, CopiesWrite, Resets, SitsDown};

    /// A card that was opened over this EEPROM. It has no terminal.
    pub fn new(card: Card, bench: LineBench) -> Held
        requires { IsReady card (chip_of bench) }
        ensures { result ≡ record { card = card; bench = bench; terminal = None } }
    {
        Held {
            desk: CardDesk::new(card, bench),
            terminal: None,
        }
    }

    /// Answers a command. A terminal that is there goes on behind it.
    pub fn answer(&mut self, command: &[u8], reply: &mut [u8], count: &mut usize) -> u32
        ensures { AnswersCall command.now reply.old reply.new count.old count.new self.old self.new result }
    {
        if reply.len() < LONGEST_REPLY {
            return TOO_SHORT;
        }
        if !self.desk.live() {
            return MUTE;
        }
        self.desk.begin();
        let mut answer = Reply {
            body: ArrayVec::new(),
            word: StatusWord::DONE,
        };
        let Outcome::Replied = self.desk.exchange(command, &mut answer) else {
            return NO_MEMORY;
        };
        note(&mut self.terminal, command, &answer);
        *count = write_octets(&answer, reply);
        DONE
    }

    /// Ends all sessions, and undoes an open transaction. A terminal that is there begins anew.
    pub fn reset(&mut self) -> u32
        ensures { Resets self.old self.new result }
    {
        if !self.desk.live() {
            return MUTE;
        }
        self.desk.begin();
        self.desk.reset();
        begin_anew(&mut self.terminal);
        DONE
    }

    /// Resets the card, and gives it a terminal, with room for so many octets of text.
    pub fn sit(&mut self, alloc: Heap, room: usize) -> u32
        ensures { SitsDown room self.old self.new result }
    {
        if !self.desk.live() {
            return MUTE;
        }
        let Ok(text) = Vec::with_capacity(alloc, room) else {
            return NO_MEMORY;
        };
        let Ok(terminal) = Box::new(alloc, Terminal::new()) else {
            return NO_MEMORY;
        };
        self.desk.begin_in(text);
        self.desk.reset();
        self.terminal = Some(terminal);
        DONE
    }

    /// Carries out a line as a statement.
    pub fn line(&mut self, line: &[u8]) -> u32
        ensures { CarriesOut line.now self.old self.new result }
    {
        let Some(terminal) = &mut self.terminal else {
            return NO_TERMINAL;
        };
        if !self.desk.live() {
            return MUTE;
        }
        self.desk.begin();
        status_of(say(terminal, &mut self.desk, line))
    }

    /// How many octets the text of the last line has.
    pub fn text_size(&self) -> usize
        ensures { result ≡ length (text_of self.now.bench) }
    {
        self.desk.bench().text().len()
    }

    /// The text of the last line, into what is lent.
    pub fn copy_text(&self, into: &mut [u8], count: &mut usize) -> u32
        ensures { CopiesText into.old into.new count.old count.new self.now result }
    {
        let text = self.desk.bench().text();
        if into.len() < text.len() {
            return TOO_SHORT;
        }
        into[..text.len()].copy_from_slice(text);
        *count = text.len();
        DONE
    }

    /// The image.
    pub fn image(&self) -> &[u8]
        ensures { result.now ≡ image_of self.now.bench }
    {
        self.desk.bench().image()
    }

    /// Copies the image into as many octets as it has.
    pub fn copy_image(&self, image: &mut [u8]) -> u32
        ensures { CopiesImage image.old image.new self.now result }
    {
        let octets = self.desk.bench().image();
        if image.len() != octets.len() {
            return TOO_SHORT;
        }
        image.copy_from_slice(octets);
        DONE
    }

    /// How many writes the last call made.
    pub fn writes(&self) -> usize
        ensures { result ≡ length (writes_of self.now.bench) }
    {
        self.desk.bench().writes()
    }

    /// The write of that number, the first being 0: its place, and its octets into what is lent.
    pub fn write(&self, write: usize, at: &mut usize, into: &mut [u8], count: &mut usize) -> u32
        ensures { CopiesWrite write at.old at.new into.old into.new count.old count.new self.now result }
    {
        let Some((place, octets)) = self.desk.bench().write_at(write) else {
            return NO_WRITE;
        };
        if into.len() < octets.len() {
            return TOO_SHORT;
        }
        into[..octets.len()].copy_from_slice(octets);
        *at = place;
        *count = octets.len();
        DONE
    }
}
