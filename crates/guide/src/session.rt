// What is known of a card from the statements that it carried out.
use scql_base::{Copied, Name, Operation};
use script::Statement;

/// How many channels a card has.
const CHANNELS: usize = 4;

/// A user who is presented.
#[derive(Drop)]
pub(crate) struct User {
    pub(crate) name: Name,
    /// Whether its secret was shown since, or it has none as OWNER.
    pub(crate) is_proved: bool,
}

/// What is known of a card from the statements that it carried out.
#[derive(Drop)]
pub(crate) struct Session {
    /// Who is presented on each channel.
    users: [Option<User>; CHANNELS],
    /// The channel on which statements are.
    pub(crate) channel: u8,
    /// The channel that has the open transaction.
    pub(crate) transaction: Option<u8>,
}

impl Session {
    /// A card that was just opened.
    pub(crate) fn new() -> Session {
        Session {
            users: [None, None, None, None],
            channel: 0,
            transaction: None,
        }
    }

    /// Who is presented on the channel on which statements are.
    pub(crate) fn user(&self) -> Option<&User> {
        self.users[usize::from(self.channel) % CHANNELS].as_ref()
    }

    /// Whether it is OWNER.
    pub(crate) fn is_owner(&self) -> bool {
        match self.user() {
            Some(user) => user.name.octets() == Name::OWNER,
            None => false,
        }
    }

    /// A statement was carried out.
    pub(crate) fn follow(&mut self, statement: &Statement) {
        match statement {
            Statement::Single { operation } => self.follow_operation(operation),
            Statement::OpenNumber { number } | Statement::CloseNumber { number } => {
                self.set_user(*number, None);
            }
            Statement::UseNumber { number } => self.channel = *number,
            Statement::Reset => *self = Session::new(),
            Statement::Blank
            | Statement::Select { .. }
            | Statement::UpdateRows { .. }
            | Statement::DeleteRows { .. } => {}
        }
    }

    fn follow_operation(&mut self, operation: &Operation) {
        match operation {
            Operation::PresentUser { name } => self.present(name),
            Operation::Verify { .. } => self.prove(),
            Operation::DeleteUser { name } => self.forget(name),
            Operation::Begin => self.transaction = Some(self.channel),
            Operation::Commit | Operation::Rollback => self.transaction = None,
            _ => {}
        }
    }

    fn set_user(&mut self, channel: u8, user: Option<User>) {
        self.users[usize::from(channel) % CHANNELS] = user;
    }

    // The name of everybody presents nobody.
    fn present(&mut self, name: &Name) {
        let user = if name.octets() == Name::PUBLIC {
            None
        } else {
            Some(User {
                name: name.copy(),
                is_proved: name.octets() == Name::OWNER,
            })
        };
        self.set_user(self.channel, user);
    }

    fn prove(&mut self) {
        if let Some(user) = &mut self.users[usize::from(self.channel) % CHANNELS] {
            user.is_proved = true;
        }
    }

    // A user is gone, on whichever channel it was presented.
    fn forget(&mut self, name: &Name) {
        for user in &mut self.users {
            let is_it = match user {
                Some(user) => user.name.octets() == name.octets(),
                None => false,
            };
            if is_it {
                *user = None;
            }
        }
    }
}
