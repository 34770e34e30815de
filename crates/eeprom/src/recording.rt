// An EEPROM and an outlet in memory, with a record of all that was written and given.
ghost use Rattle.std.specs.Prelude.{◌≡◌, ◌+◌, ◌≤◌, length, replicate};
ghost use Rattle.eeprom.specs.Image.{overwrite};
ghost use Rattle.eeprom.specs.Recorded.{replayed, AllFit, AllFit-prop};

use std::alloc::{AllocError, Global};

/// A write, and how many octets of output had gone out then.
#[derive(Drop)]
pub struct Written {
    pub at: usize,
    pub octets: Vec<u8>,
    pub mark: usize,
}

/// What was done: a write, or a piece of output that raised the mark.
#[derive(Drop)]
pub enum Event {
    Write(Written),
    Give(usize, usize),
}

#[derive(Drop)]
pub struct Recording {
    first: Vec<u8>,
    image: Vec<u8>,
    output: Vec<u8>,
    events: Vec<Event>,
    ghost replays: { image.items ≡ replayed first.items events.items },
    ghost fits: { AllFit (length first.items) events.items } by { AllFit-prop (length first.items) events.items },
}

impl Recording {
    ghost use Rattle.std.specs.Prelude.{◌≡◌, ◌+◌, ◌≤◌, length, replicate, slice_get, option_map, IfOk};
    ghost use Rattle.eeprom.specs.Recording.{Records, told};
    ghost use Rattle.eeprom.specs.Told.{untouched, with_write, with_output, writes_of, filled};

    pub fn new(alloc: Global, image: Vec<u8>) -> Result<Recording, AllocError>
        ensures { IfOk result (λ recording. told recording ≡ untouched image.items) }
    {
        Ok(Recording {
            first: Vec::from_slice(alloc, &image)?,
            image,
            output: Vec::new(alloc),
            events: Vec::new(alloc),
        })
    }

    pub fn image(&self) -> &[u8]
        ensures { result.now ≡ (told self.now).image }
    {
        &self.image
    }

    pub fn output(&self) -> &[u8]
        ensures { result.now ≡ (told self.now).output }
    {
        &self.output
    }

    /// How many writes were recorded.
    #[tactic(auto, using(crate::proofs::Replayed::count_past, crate::proofs::Replayed::marks_fit))]
    pub fn writes(&self) -> usize
        ensures { result ≡ length (writes_of (told self.now).past) }
    {
        let mut count = 0;
        let mut left = self.events.as_slice();
        while let [event, rest @ ..] = left {
            if let Event::Write(_) = event {
                count += 1;
            }
            left = rest;
        }
        count
    }

    /// How many octets of output had gone out at that write, the first being 0.
    #[tactic(auto, using(crate::proofs::Replayed::mark_past))]
    pub fn mark_at(&self, write: usize) -> Option<usize>
        ensures { result ≡ option_map (λ w. w.mark) (slice_get (writes_of (told self.now).past) write) }
    {
        let mut before = write;
        let mut left = self.events.as_slice();
        while let [event, rest @ ..] = left {
            if let Event::Write(written) = event {
                if before == 0 {
                    return Some(written.mark);
                }
                before -= 1;
            }
            left = rest;
        }
        None
    }

    /// The image within that write, with one octet in the whole range of the write.
    pub fn image_within(
        &self,
        alloc: Global,
        write: usize,
        octet: u8,
    ) -> Result<Option<Vec<u8>>, AllocError>
        ensures { IfOk result (λ found. option_map (λ v. v.items) found ≡ option_map (filled octet) (slice_get (writes_of (told self.now).past) write)) }
    {
        let mut image = Vec::from_slice(alloc, &self.first)?;
        let mut before = write;
        let mut left = self.events.as_slice();
        while let [event, rest @ ..] = left {
            if let Event::Write(written) = event {
                if before == 0 {
                    fill_over(&mut image, written.at, written.octets.len(), octet);
                    return Ok(Some(image));
                }
                write_over(&mut image, written.at, &written.octets);
                before -= 1;
            }
            left = rest;
        }
        Ok(None)
    }

    /// Writes octets from `at` on. Where there is no room for their record nothing is written.
    pub fn write(&mut self, alloc: Global, at: usize, octets: &[u8]) -> Result<(), AllocError>
        requires { at + length octets.now ≤ length (told self.old).image }
        ensures { Records (with_write at octets.now) self.old self.new result }
    {
        self.write_owned(at, Vec::from_slice(alloc, octets)?)
    }

    /// Writes one octet over a range. Where there is no room for the record nothing is written.
    pub fn fill(
        &mut self,
        alloc: Global,
        at: usize,
        count: usize,
        octet: u8,
    ) -> Result<(), AllocError>
        requires { at + count ≤ length (told self.old).image }
        ensures { Records (with_write at (replicate count octet)) self.old self.new result }
    {
        self.write_owned(at, vec![in alloc; octet; count]?)
    }

    // Writes octets, which stay in the record.
    fn write_owned(&mut self, at: usize, octets: Vec<u8>) -> Result<(), AllocError>
        requires { at + length octets.items ≤ length (told self.old).image }
        ensures { Records (with_write at octets.items) self.old self.new result }
    {
        self.events.reserve(1)?;
        write_over(&mut self.image, at, &octets);
        self.events.push_reserved(Event::Write(Written {
            at,
            octets,
            mark: self.output.len(),
        }));
        Ok(())
    }

    /// Adds octets to the output. Where there is no room for them and their record nothing is given.
    pub fn give(&mut self, octets: &[u8]) -> Result<(), AllocError>
        ensures { Records (with_output octets.now) self.old self.new result }
    {
        self.events.reserve(1)?;
        let from = self.output.len();
        self.output.extend_from_slice(octets)?;
        self.events
            .push_reserved(Event::Give(from, self.output.len()));
        Ok(())
    }
}

/// The octets of the range are these, and all else stays.
pub fn write_over(image: &mut [u8], at: usize, octets: &[u8])
    requires { at + length octets.now ≤ length image.old }
    ensures { image.new ≡ overwrite image.old at octets.now }
{
    image[at..at + octets.len()].copy_from_slice(octets);
}

/// The octets of the range are all this one, and all else stays.
fn fill_over(image: &mut [u8], at: usize, count: usize, octet: u8)
    requires { at + count ≤ length image.old }
    ensures { image.new ≡ overwrite image.old at (replicate count octet) }
{
    image[at..at + count].fill(octet);
}
