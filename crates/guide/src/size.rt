// What is said of a statement that is too large for its commands.
use crate::Message;
use crate::token::value_len;
use script::Tokens;

/// Puts how large a statement is, and how large it may be.
pub(crate) fn put_too_large(line: &[u8], message: &mut Message) {
    match Tokens::new(line).next() {
        b"INSERT" => {
            message.put(b"the row has ");
            put_thousands(row_size(line), message);
            message.put(b" octets, and 1,020 are the most");
        }
        b"UPDATE" => message.put(
            b"object and conditions may take 255 octets, and the changes 1,275",
        ),
        b"CREATE" => message.put(b"view, base, columns and conditions may take 255 octets"),
        _ => message.put(b"object, columns and conditions may take 255 octets"),
    }
}

// The octets of each value, and one for each.
fn row_size(line: &[u8]) -> usize {
    let mut tokens = Tokens::new(line);
    let mut size: usize = 0;
    for _ in 0..line.len() {
        if let Some(len) = value_len(tokens.next()) {
            size = size.saturating_add(len).saturating_add(1);
        }
        tokens.skip();
    }
    size
}

fn put_thousands(number: usize, message: &mut Message) {
    if number < 1000 {
        message.put_number(number);
        return;
    }
    message.put_number(number / 1000);
    message.put(b",");
    for unit in [100, 10, 1] {
        message.put_number(number / unit % 10);
    }
}
