// What a status word means of a statement, as far as the terminal can know.
ghost use Rattle.std.specs.Prelude.{◌≡◌, ◌++◌, take};
ghost use Rattle.hex.specs.Hex.{encode_upper};
ghost use Rattle.eeprom.specs.StoreOf.{two_octets};
ghost use Rattle.guide.specs.declared.message.TheConstants.Message.{LONGEST};

use crate::session::Session;
use crate::{Cells, Message};
use scql_base::{Name, Operation, StatusWord};
use script::Statement;

/// Puts what a word means of a statement that a card refused by it.
#[inline(never)]
pub(crate) fn put_refusal(
    session: &Session,
    statement: &Statement,
    word: StatusWord,
    cells: Option<Cells>,
    message: &mut Message,
) {
    match word {
        StatusWord::SECURITY_NOT_SATISFIED => put_not_allowed(session, message),
        StatusWord::NOT_FOUND => put_not_found(session, statement, message),
        StatusWord::WRONG_DATA => put_wrong_data(statement, message),
        StatusWord::NO_SPACE => put_no_room(cells, message),
        StatusWord::ALREADY_EXISTS => put_there(statement, message),
        StatusWord::CONDITIONS_NOT_SATISFIED => put_conditions(session, statement, message),
        StatusWord::AUTHENTICATION_BLOCKED => {
            message.put(b"blocked: no try is left. Its owner can delete the user and make it anew");
        }
        StatusWord::CHANNEL_NOT_SUPPORTED => put_no_channel(session, statement, message),
        StatusWord::FUNCTION_NOT_SUPPORTED => message.put(b"channels 1 to 3 are open"),
        StatusWord::MEMORY_FAILURE => {
            message.put(b"the EEPROM failed; the card answers nothing more");
        }
        _ => put_other(word.word, message),
    }
}

// A word that tells how many tries are left, or one that no statement should get.
fn put_other(word: u16, message: &mut Message) {
    match word {
        0x63C0 => message.put(b"wrong secret: no try is left, and none comes back"),
        0x63C1 => message.put(b"wrong secret: 1 try is left"),
        0x63C2..=0x63CF => {
            message.put(b"wrong secret: ");
            message.put_number(usize::from(word - 0x63C0));
            message.put(b" tries are left");
        }
        _ => {
            message.put(b"the card answered ");
            put_word(word, message);
            message.put(b" (docs/PROFILE.md)");
        }
    }
}

/// Puts a status word in hexadecimal digits, as far as there is room for them.
#[tactic(auto, using(apdu::proofs::HexadecimalTexts::upper_of_lower))]
pub fn put_word(word: u16, message: &mut Message)
    ensures { message.new ≡ take LONGEST (message.old ++ encode_upper (two_octets word)) }
{
    let mut digits = [0; 4];
    let fits = hex::encode_to_slice(word.to_be_bytes(), &mut digits).is_ok();
    prove!(fits);
    digits.make_ascii_uppercase();
    message.put(&digits);
}

// Who acts, as far as is known: nobody, a user, or one who may have a secret and hasn't shown it.
fn put_actor(session: &Session, message: &mut Message) {
    match session.user() {
        Some(user) => message.put(user.name.octets()),
        None => message.put(Name::PUBLIC),
    }
}

// What somebody may have left out.
fn put_advice(session: &Session, message: &mut Message) {
    match session.user() {
        Some(user) if !user.is_proved => {
            message.put(b" (VERIFY first, if ");
            message.put(user.name.octets());
            message.put(b" has a secret)");
        }
        Some(_) => {}
        None => {
            message.put(b" (nobody is presented on channel ");
            message.put_number(usize::from(session.channel));
            message.put(b")");
        }
    }
}

fn put_not_allowed(session: &Session, message: &mut Message) {
    match session.user() {
        Some(user) => {
            message.put(b"not allowed: ");
            message.put(user.name.octets());
            message.put(b" doesn't hold this right");
            put_advice(session, message);
        }
        None => {
            message.put(b"not allowed: nobody is proved on channel ");
            message.put_number(usize::from(session.channel));
            message.put(b" (PRESENT and VERIFY)");
        }
    }
}

fn put_not_found(session: &Session, statement: &Statement, message: &mut Message) {
    message.put(b"not found: ");
    match statement {
        Statement::Select { object, .. } | Statement::UpdateRows { object, .. } => {
            put_unseen(session, b" sees no object ", object, message);
            message.put(b", or it has no column of that name");
            put_advice(session, message);
        }
        Statement::DeleteRows { object, conditions } => {
            put_unseen(session, b" sees no table ", object, message);
            if conditions.len() > 0 {
                message.put(b", or it has no column of that name");
            }
            put_advice(session, message);
        }
        Statement::Single { operation } => put_operation_not_found(session, operation, message),
        _ => message.put(b"no object or no user of that name"),
    }
}

fn put_operation_not_found(session: &Session, operation: &Operation, message: &mut Message) {
    match operation {
        Operation::PresentUser { name } | Operation::DeleteUser { name } => {
            message.put(b"no user ");
            message.put(name.octets());
        }
        Operation::Grant {
            object,
            grantee,
            ..
        } => {
            put_no_grant(session, object, b", or no user ", grantee, message);
        }
        Operation::Revoke {
            object,
            grantee,
            ..
        } => {
            put_no_grant(session, object, b", no user ", grantee, message);
            message.put(b", or no grant to take");
        }
        Operation::CreateView { base, .. } => {
            put_unseen(session, b" sees no table or view ", base, message);
            message.put(b", or it has no column of that name");
            put_advice(session, message);
        }
        Operation::DropView { name } => {
            put_unseen(session, b" sees no view or dictionary ", name, message);
            put_advice(session, message);
        }
        Operation::Insert { table: name, .. } | Operation::DropTable { name } => {
            put_unseen(session, b" sees no table ", name, message);
            put_advice(session, message);
        }
        _ => message.put(b"no object or no user of that name"),
    }
}

fn put_unseen(session: &Session, what: &[u8], name: &Name, message: &mut Message) {
    put_actor(session, message);
    message.put(what);
    message.put(name.octets());
}

fn put_no_grant(
    session: &Session,
    object: &Name,
    and: &[u8],
    grantee: &Name,
    message: &mut Message,
) {
    message.put(b"no object ");
    message.put(object.octets());
    message.put(b" of ");
    put_actor(session, message);
    message.put(b"'s");
    message.put(and);
    message.put(grantee.octets());
}

fn put_wrong_data(statement: &Statement, message: &mut Message) {
    match statement {
        Statement::Single {
            operation: Operation::Insert { table, .. },
        } => {
            message.put(b"not so many values: ");
            message.put(table.octets());
            message.put(
                b" has another number of columns, or the row is longer than this card takes (240, migrated 1,020)",
            );
        }
        _ => message.put(b"a row would be longer than this card takes (240, migrated 1,020)"),
    }
}

fn put_no_room(cells: Option<Cells>, message: &mut Message) {
    message.put(b"no room");
    if let Some(cells) = cells {
        message.put(b": ");
        message.put_number(usize::from(cells.used));
        message.put(b" cells are used of ");
        message.put_number(usize::from(cells.all));
    }
}

// The name of what a statement makes is taken.
fn put_there(statement: &Statement, message: &mut Message) {
    if let Statement::Single { operation } = statement {
        match operation {
            Operation::CreateTable { name, .. }
            | Operation::CreateView { name, .. }
            | Operation::CreateDictionary { name, .. }
            | Operation::CreateUser { name, .. } => message.put(name.octets()),
            _ => message.put(b"it"),
        }
    }
    message.put(b" is there already");
}

fn put_no_channel(session: &Session, statement: &Statement, message: &mut Message) {
    let number = match statement {
        Statement::CloseNumber { number } => *number,
        _ => session.channel,
    };
    message.put(b"channel ");
    message.put_number(usize::from(number));
    message.put(b" isn't open (OPEN CHANNEL ");
    message.put_number(usize::from(number));
    message.put(b")");
}

fn put_conditions(session: &Session, statement: &Statement, message: &mut Message) {
    match session.transaction {
        Some(channel) if waits(session.channel, channel, statement) => {
            message.put(b"channel ");
            message.put_number(usize::from(channel));
            message.put(b" has an open transaction: COMMIT or ROLLBACK there");
        }
        _ => message.put(conditions_of(statement)),
    }
}

// Whether a statement on a channel waits for the transaction of another one, or of its own.
fn waits(channel: u8, holder: u8, statement: &Statement) -> bool {
    match statement {
        Statement::CloseNumber { number } => *number == holder,
        Statement::OpenNumber { .. } => false,
        Statement::Single { operation } => match operation {
            Operation::Begin => false,
            Operation::PresentUser { .. }
            | Operation::Verify { .. }
            | Operation::DeleteUser { .. } => true,
            _ => channel != holder,
        },
        _ => channel != holder,
    }
}

fn conditions_of(statement: &Statement) -> &'static [u8] {
    match statement {
        Statement::UpdateRows { .. } | Statement::DeleteRows { .. } => b"a dictionary is only read",
        Statement::OpenNumber { .. } => b"this channel is open already",
        Statement::Single { operation } => match operation {
            Operation::Verify { .. } =>
                b"nothing to verify: nobody is presented, the user has no secret or is proved, or a transaction is open",
            Operation::Begin => b"a transaction is open",
            Operation::Commit | Operation::Rollback => b"this channel has no transaction",
            Operation::DropTable { .. } | Operation::DropView { .. } => b"a view rests on it",
            Operation::DeleteUser { .. } =>
                b"OWNER, or it owns users or objects: drop these first; or a transaction is open",
            Operation::CreateView { .. } => b"four views over one another are the most",
            _ => b"another channel has an open transaction: COMMIT or ROLLBACK there",
        },
        _ => b"another channel has an open transaction: COMMIT or ROLLBACK there",
    }
}
