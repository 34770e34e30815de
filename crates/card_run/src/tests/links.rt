// A link that fails, over a live card.
use super::{fresh_card, no_faults};
use apdu::Reply;
use arrayvec::ArrayVec;
use card::{Card, LiveCard};
use card_link::{CardLink, FailingLink, Outcome};
use eeprom::MemBench;
use scql_base::StatusWord;
use std::test::Fail;

/// PRESENT USER of OWNER.
const PRESENT_OWNER: [u8; 11] = [
    0x00, 0x14, 0x00, 0x80, 0x06, 0x05, 0x4F, 0x57, 0x4E, 0x45, 0x52,
];

// It passes on as many commands as it was made with, and is mute at the next.
#[test]
fn mute_at_the_third_command(rt: HostRuntime) -> Result<(), Fail> {
    let alloc = rt.alloc();
    let mut bench = MemBench::new(alloc, fresh_card(alloc)?, no_faults(alloc))?;
    let Ok(card) = Card::open(alloc, &mut bench) else {
        panic!(rt; "no card");
    };
    let mut link = FailingLink::new(LiveCard::new(card, &mut bench), 2);
    let mut reply = Reply {
        body: ArrayVec::new(),
        word: StatusWord::NOT_FOUND,
    };
    for number in 0..3 {
        assert!(rt; link.live(), "{number}");
        if !link.live() {
            break;
        }
        let outcome = link.exchange(&PRESENT_OWNER, &mut reply);
        let (wanted, word) = if number < 2 {
            (Outcome::Replied, StatusWord::DONE)
        } else {
            (Outcome::Mute, StatusWord::MEMORY_FAILURE)
        };
        assert!(rt; outcome == wanted, "{number}");
        assert!(rt; reply.word.word == word.word, "{number}");
    }
    assert!(rt; !link.live());
    Ok(())
}
