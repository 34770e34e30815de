// The rules of the grammar that stand for a statement. Each reads its statement into a place, in a function of its own that isn't
// inlined: what a function clears as it is entered is then cleared for its statement alone.
ghost use Rattle.std.specs.Prelude.{◌≡◌, [], option_map, Some};
ghost use Rattle.script.specs.Grammar as grammar;
ghost use Rattle.script.specs.declared.statement.Statement.TheVariants.{Reset, Single};

use crate::Statement;
use crate::literal::{given_secret_of, presented_secret_of};
use crate::tokens::Tokens;
use crate::words::{channel_of, further_channel_of, profile_of, subject_of};
use scql_base::{Changes, Conditions, Octets, Operation};

impl<'a> Tokens<'a> {
    #[inline(never)]
    #[tactic(auto, unfolding(crate::specs::Grammar::create_table))]
    fn create_table(&mut self, place: &mut Statement) -> Option<()>
        ensures { grammar.create_table self.old ≡ (option_map (λ _. place.new) result, self.new) }
    {
        let name = self.name()?;
        self.expect(b"(")?;
        let columns = self.names()?;
        self.expect(b")")?;
        put(Operation::CreateTable { name, columns }, place)
    }

    #[inline(never)]
    #[tactic(auto, unfolding(crate::specs::Grammar::create_view))]
    fn create_view(&mut self, place: &mut Statement) -> Option<()>
        ensures { grammar.create_view self.old ≡ (option_map (λ _. place.new) result, self.new) }
    {
        let name = self.name()?;
        self.expect(b"AS")?;
        self.expect(b"SELECT")?;
        let columns = self.columns()?;
        self.expect(b"FROM")?;
        let base = self.name()?;
        let mut conditions = Conditions::new();
        self.where_conditions(&mut conditions)?;
        put(
            Operation::CreateView {
                name,
                base,
                columns,
                conditions,
            },
            place,
        )
    }

    #[inline(never)]
    #[tactic(auto, unfolding(crate::specs::Grammar::create_dictionary, crate::specs::Reading::one))]
    fn create_dictionary(&mut self, place: &mut Statement) -> Option<()>
        ensures { grammar.create_dictionary self.old ≡ (option_map (λ _. place.new) result, self.new) }
    {
        let name = self.name()?;
        self.expect(b"ON")?;
        let subject = subject_of(self.next())?;
        self.skip();
        put(Operation::CreateDictionary { name, subject }, place)
    }

    #[inline(never)]
    #[tactic(auto, unfolding(crate::specs::Grammar::create_user, crate::specs::Reading::one, crate::specs::Reading::optional))]
    fn create_user(&mut self, place: &mut Statement) -> Option<()>
        ensures { grammar.create_user self.old ≡ (option_map (λ _. place.new) result, self.new) }
    {
        let name = self.name()?;
        let profile = profile_of(self.next())?;
        self.skip();
        let secret = match given_secret_of(self.next()) {
            Some(secret) => {
                self.skip();
                secret
            }
            None => no_secret(),
        };
        put(
            Operation::CreateUser {
                name,
                profile,
                secret,
            },
            place,
        )
    }

    #[tactic(auto, unfolding(crate::specs::Grammar::create))]
    fn create(&mut self, place: &mut Statement) -> Option<()>
        ensures { grammar.create self.old ≡ (option_map (λ _. place.new) result, self.new) }
    {
        if self.takes(b"TABLE") {
            self.create_table(place)
        } else if self.takes(b"VIEW") {
            self.create_view(place)
        } else if self.takes(b"DICTIONARY") {
            self.create_dictionary(place)
        } else if self.takes(b"USER") {
            self.create_user(place)
        } else {
            None
        }
    }

    #[inline(never)]
    #[tactic(auto, unfolding(crate::specs::Grammar::drop_table))]
    fn drop_table(&mut self, place: &mut Statement) -> Option<()>
        ensures { grammar.drop_table self.old ≡ (option_map (λ _. place.new) result, self.new) }
    {
        let name = self.name()?;
        put(Operation::DropTable { name }, place)
    }

    #[inline(never)]
    #[tactic(auto, unfolding(crate::specs::Grammar::drop_view))]
    fn drop_view(&mut self, place: &mut Statement) -> Option<()>
        ensures { grammar.drop_view self.old ≡ (option_map (λ _. place.new) result, self.new) }
    {
        let name = self.name()?;
        put(Operation::DropView { name }, place)
    }

    #[tactic(auto, unfolding(crate::specs::Grammar::dropping))]
    fn dropping(&mut self, place: &mut Statement) -> Option<()>
        ensures { grammar.dropping self.old ≡ (option_map (λ _. place.new) result, self.new) }
    {
        if self.takes(b"TABLE") {
            self.drop_table(place)
        } else if self.takes(b"VIEW") {
            self.drop_view(place)
        } else {
            None
        }
    }

    #[inline(never)]
    #[tactic(auto, unfolding(crate::specs::Grammar::grant))]
    fn grant(&mut self, place: &mut Statement) -> Option<()>
        ensures { grammar.grant self.old ≡ (option_map (λ _. place.new) result, self.new) }
    {
        let privileges = self.privileges()?;
        self.expect(b"ON")?;
        let object = self.name()?;
        self.expect(b"TO")?;
        let grantee = self.name()?;
        put(
            Operation::Grant {
                privileges,
                object,
                grantee,
            },
            place,
        )
    }

    #[inline(never)]
    #[tactic(auto, unfolding(crate::specs::Grammar::revoke))]
    fn revoke(&mut self, place: &mut Statement) -> Option<()>
        ensures { grammar.revoke self.old ≡ (option_map (λ _. place.new) result, self.new) }
    {
        let privileges = self.privileges()?;
        self.expect(b"ON")?;
        let object = self.name()?;
        self.expect(b"FROM")?;
        let grantee = self.name()?;
        put(
            Operation::Revoke {
                privileges,
                object,
                grantee,
            },
            place,
        )
    }

    #[inline(never)]
    #[tactic(auto, unfolding(crate::specs::Grammar::select))]
    fn select(&mut self, place: &mut Statement) -> Option<()>
        ensures { grammar.select self.old ≡ (option_map (λ _. place.new) result, self.new) }
    {
        let columns = self.columns()?;
        self.expect(b"FROM")?;
        let object = self.name()?;
        let mut conditions = Conditions::new();
        self.where_conditions(&mut conditions)?;
        *place = Statement::Select {
            object,
            columns,
            conditions,
        };
        Some(())
    }

    #[inline(never)]
    #[tactic(auto, unfolding(crate::specs::Grammar::update))]
    fn update(&mut self, place: &mut Statement) -> Option<()>
        ensures { grammar.update self.old ≡ (option_map (λ _. place.new) result, self.new) }
    {
        let object = self.name()?;
        self.expect(b"SET")?;
        let mut changes = Changes::new();
        self.changes(&mut changes)?;
        let mut conditions = Conditions::new();
        self.where_conditions(&mut conditions)?;
        *place = Statement::UpdateRows {
            object,
            changes,
            conditions,
        };
        Some(())
    }

    #[inline(never)]
    #[tactic(auto, unfolding(crate::specs::Grammar::delete_rows))]
    fn delete_rows(&mut self, place: &mut Statement) -> Option<()>
        ensures { grammar.delete_rows self.old ≡ (option_map (λ _. place.new) result, self.new) }
    {
        let object = self.name()?;
        let mut conditions = Conditions::new();
        self.where_conditions(&mut conditions)?;
        *place = Statement::DeleteRows { object, conditions };
        Some(())
    }

    #[inline(never)]
    #[tactic(auto, unfolding(crate::specs::Grammar::delete_user))]
    fn delete_user(&mut self, place: &mut Statement) -> Option<()>
        ensures { grammar.delete_user self.old ≡ (option_map (λ _. place.new) result, self.new) }
    {
        let name = self.name()?;
        put(Operation::DeleteUser { name }, place)
    }

    #[tactic(auto, unfolding(crate::specs::Grammar::delete))]
    fn delete(&mut self, place: &mut Statement) -> Option<()>
        ensures { grammar.delete self.old ≡ (option_map (λ _. place.new) result, self.new) }
    {
        if self.takes(b"FROM") {
            self.delete_rows(place)
        } else if self.takes(b"USER") {
            self.delete_user(place)
        } else {
            None
        }
    }

    #[inline(never)]
    #[tactic(auto, unfolding(crate::specs::Grammar::present))]
    fn present(&mut self, place: &mut Statement) -> Option<()>
        ensures { grammar.present self.old ≡ (option_map (λ _. place.new) result, self.new) }
    {
        let name = self.name()?;
        put(Operation::PresentUser { name }, place)
    }

    #[inline(never)]
    #[tactic(auto, unfolding(crate::specs::Grammar::verify, crate::specs::Reading::one))]
    fn verify(&mut self, place: &mut Statement) -> Option<()>
        ensures { grammar.verify self.old ≡ (option_map (λ _. place.new) result, self.new) }
    {
        let secret = presented_secret_of(self.next())?;
        self.skip();
        put(Operation::Verify { secret }, place)
    }

    #[inline(never)]
    #[tactic(auto, unfolding(crate::specs::Grammar::open_channel, crate::specs::Reading::one))]
    fn open_channel(&mut self, place: &mut Statement) -> Option<()>
        ensures { grammar.open_channel self.old ≡ (option_map (λ _. place.new) result, self.new) }
    {
        self.expect(b"CHANNEL")?;
        let number = further_channel_of(self.next())?;
        self.skip();
        *place = Statement::OpenNumber { number };
        Some(())
    }

    #[inline(never)]
    #[tactic(auto, unfolding(crate::specs::Grammar::close_channel, crate::specs::Reading::one))]
    fn close_channel(&mut self, place: &mut Statement) -> Option<()>
        ensures { grammar.close_channel self.old ≡ (option_map (λ _. place.new) result, self.new) }
    {
        self.expect(b"CHANNEL")?;
        let number = further_channel_of(self.next())?;
        self.skip();
        *place = Statement::CloseNumber { number };
        Some(())
    }

    #[inline(never)]
    #[tactic(auto, unfolding(crate::specs::Grammar::use_channel, crate::specs::Reading::one))]
    fn use_channel(&mut self, place: &mut Statement) -> Option<()>
        ensures { grammar.use_channel self.old ≡ (option_map (λ _. place.new) result, self.new) }
    {
        let number = channel_of(self.next())?;
        self.skip();
        *place = Statement::UseNumber { number };
        Some(())
    }

    #[tactic(auto, unfolding(crate::specs::Grammar::about_channels))]
    fn about_channels(&mut self, place: &mut Statement) -> Option<()>
        ensures { grammar.about_channels self.old ≡ (option_map (λ _. place.new) result, self.new) }
    {
        if self.takes(b"OPEN") {
            self.open_channel(place)
        } else if self.takes(b"CLOSE") {
            self.close_channel(place)
        } else if self.takes(b"CHANNEL") {
            self.use_channel(place)
        } else {
            None
        }
    }

    #[tactic(auto, unfolding(crate::specs::Grammar::about_transactions))]
    fn about_transactions(&mut self, place: &mut Statement) -> Option<()>
        ensures { grammar.about_transactions self.old ≡ (option_map (λ _. place.new) result, self.new) }
    {
        if self.takes(b"BEGIN") {
            put(Operation::Begin, place)
        } else if self.takes(b"COMMIT") {
            put(Operation::Commit, place)
        } else if self.takes(b"ROLLBACK") {
            put(Operation::Rollback, place)
        } else if self.takes(b"RESET") {
            put_reset(place)
        } else {
            self.about_channels(place)
        }
    }

    #[tactic(auto, unfolding(crate::specs::Grammar::about_users))]
    fn about_users(&mut self, place: &mut Statement) -> Option<()>
        ensures { grammar.about_users self.old ≡ (option_map (λ _. place.new) result, self.new) }
    {
        if self.takes(b"PRESENT") {
            self.present(place)
        } else if self.takes(b"VERIFY") {
            self.verify(place)
        } else {
            self.about_transactions(place)
        }
    }

    #[tactic(auto, unfolding(crate::specs::Grammar::about_objects))]
    fn about_objects(&mut self, place: &mut Statement) -> Option<()>
        ensures { grammar.about_objects self.old ≡ (option_map (λ _. place.new) result, self.new) }
    {
        if self.takes(b"CREATE") {
            self.create(place)
        } else if self.takes(b"DROP") {
            self.dropping(place)
        } else if self.takes(b"GRANT") {
            self.grant(place)
        } else if self.takes(b"REVOKE") {
            self.revoke(place)
        } else {
            self.about_users(place)
        }
    }

    #[tactic(auto, unfolding(crate::specs::Grammar::about_rows))]
    pub(crate) fn about_rows(&mut self, place: &mut Statement) -> Option<()>
        ensures { grammar.about_rows self.old ≡ (option_map (λ _. place.new) result, self.new) }
    {
        if self.takes(b"SELECT") {
            self.select(place)
        } else if self.takes(b"UPDATE") {
            self.update(place)
        } else if self.takes(b"DELETE") {
            self.delete(place)
        } else {
            self.about_objects(place)
        }
    }
}

/// Puts an operation into a place. Where the place has one already, what stands behind it is left as it is.
pub(crate) fn put(operation: Operation, place: &mut Statement) -> Option<()>
    ensures { option_map (λ _. place.new) result ≡ Some (Single operation) }
{
    match place {
        Statement::Single { operation: held } => *held = operation,
        _ => *place = Statement::Single { operation },
    }
    Some(())
}

fn put_reset(place: &mut Statement) -> Option<()>
    ensures { option_map (λ _. place.new) result ≡ Some Reset }
{
    *place = Statement::Reset;
    Some(())
}

fn no_secret() -> Octets<8>
    ensures { result ≡ [] }
{
    Octets::of(b"").unwrap()
}
