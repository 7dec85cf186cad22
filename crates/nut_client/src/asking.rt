//! What a tool asks to show something, one query after the other, and the text that it makes of the answers.
ghost use Rattle.std.specs.Prelude.{◌≡◌, ◌∷◌, ◌++◌, [], List, ℕ};
ghost use Rattle.nut_client.specs.Script.{Asks, Prints, Script, commands, line, lists, on_rows, row_lines, script, settings, values_of as values_meant, with_values, word};
ghost use Rattle.nut_client.specs.inside.Between.{Goes, IsMade, point};
ghost use Rattle.nut_client.specs.declared.wanted.Wanted.TheVariants.{Commands, Member, Object, Settings, Value};
ghost use Rattle.nut_proto.specs.declared.request.Request.TheVariants.{List as Lists};

use crate::conversation::Conversation;
use crate::failure::ToolFailure;
use crate::json::{member_text, object_text};
use crate::printing::{AllowedValues, RowForm, put_heading, put_line, put_rows, values_of};
use crate::stream::Stream;
use crate::wanted::Wanted;
use nut_link::{Fields, Text};
use nut_proto::{ListQuery, Request, Word};
use std::alloc::Global;
use std::time::Clock;

/// Returns the lines that show these rows.
fn rows_text(alloc: Global, form: RowForm, rows: &[Fields]) -> Result<Text, ToolFailure>
    ensures { IsMade (row_lines form rows.now) result }
{
    let mut text = Vec::new(alloc);
    put_rows(&mut text, form, rows)?;
    Ok(Text::of(text))
}

/// Returns the line of a word.
pub(crate) fn line_text(alloc: Global, word: &[u8]) -> Result<Text, ToolFailure>
    ensures { IsMade (line (word.now ∷ [])) result }
{
    let mut text = Vec::new(alloc);
    put_line(&mut text, &[word])?;
    Ok(Text::of(text))
}

/// Returns the name of the variable or of the command that a row is about.
fn name_of(row: &Fields) -> Word<'_>
    ensures { result ≡ word 0 row.now }
{
    Word::new(row.get(0))
}

impl Conversation {
    /// Asks what is wanted of the UPS of this name. Returns the text to print.
    pub(crate) fn answer<S: Stream>(
        &mut self,
        rt: &impl Clock,
        stream: &mut S,
        ups: Word<'_>,
        wanted: Wanted<'_>,
    ) -> Result<Text, ToolFailure>
        ensures { Goes (script ups.entry wanted.entry) Prints result
            (point S.remaining S.taken S.has_ended self.old.unread stream.old)
            (point S.remaining S.taken S.has_ended self.new.unread stream.new) }
    {
        match wanted {
            Wanted::Variables => self.list(stream, ListQuery::Var { ups }, RowForm::Pairs),
            Wanted::Object => self.object(stream, ups),
            Wanted::Value(variable) => self.value(stream, ups, variable),
            Wanted::Member(variable) => self.member(stream, ups, variable),
            Wanted::Names => self.list(stream, ListQuery::Ups, RowForm::Firsts),
            Wanted::Descriptions => self.list(stream, ListQuery::Ups, RowForm::Pairs),
            Wanted::Clients => self.list(stream, ListQuery::Client { ups }, RowForm::Firsts),
            Wanted::Settings => self.settings(stream, ups),
            Wanted::Commands => self.commands(stream, ups),
            Wanted::Does(user, password, deed, until) => {
                self.carry_out(rt, stream, ups, user, password, deed, until)
            }
        }
    }

    /// Lists: a line for each row.
    fn list<S: Stream>(
        &mut self,
        stream: &mut S,
        query: ListQuery<'_>,
        form: RowForm,
    ) -> Result<Text, ToolFailure>
        ensures { Goes (lists (Lists query.entry) form) Prints result
            (point S.remaining S.taken S.has_ended self.old.unread stream.old)
            (point S.remaining S.taken S.has_ended self.new.unread stream.new) }
    {
        let rows = self.rows(stream, query)?;
        rows_text(self.alloc, form, rows.as_slice())
    }

    /// Shows all variables as a JSON object.
    fn object<S: Stream>(&mut self, stream: &mut S, ups: Word<'_>) -> Result<Text, ToolFailure>
        ensures { Goes (script ups.entry Object) Prints result
            (point S.remaining S.taken S.has_ended self.old.unread stream.old)
            (point S.remaining S.taken S.has_ended self.new.unread stream.new) }
    {
        let rows = self.rows(stream, ListQuery::Var { ups })?;
        object_text(self.alloc, rows.as_slice())
    }

    /// Shows the value of a variable.
    fn value<S: Stream>(
        &mut self,
        stream: &mut S,
        ups: Word<'_>,
        variable: Word<'_>,
    ) -> Result<Text, ToolFailure>
        ensures { Goes (script ups.entry (Value variable.entry)) Prints result
            (point S.remaining S.taken S.has_ended self.old.unread stream.old)
            (point S.remaining S.taken S.has_ended self.new.unread stream.new) }
    {
        let words = self.words(stream, &Request::GetVar { ups, variable })?;
        line_text(self.alloc, words.get(0))
    }

    /// Shows the value of a variable as a JSON object.
    fn member<S: Stream>(
        &mut self,
        stream: &mut S,
        ups: Word<'_>,
        variable: Word<'_>,
    ) -> Result<Text, ToolFailure>
        ensures { Goes (script ups.entry (Member variable.entry)) Prints result
            (point S.remaining S.taken S.has_ended self.old.unread stream.old)
            (point S.remaining S.taken S.has_ended self.new.unread stream.new) }
    {
        let name = variable.copy();
        let words = self.words(stream, &Request::GetVar { ups, variable })?;
        member_text(self.alloc, name.as_bytes(), words.get(0))
    }

    /// Shows all writable variables, each with the values that it may have.
    fn settings<S: Stream>(&mut self, stream: &mut S, ups: Word<'_>) -> Result<Text, ToolFailure>
        ensures { Goes (script ups.entry Settings) Prints result
            (point S.remaining S.taken S.has_ended self.old.unread stream.old)
            (point S.remaining S.taken S.has_ended self.new.unread stream.new) }
    {
        let rows = self.rows(stream, ListQuery::Rw { ups: ups.copy() })?;
        let mut text = Vec::new(self.alloc);
        self.put_settings(stream, &ups, rows.as_slice(), &mut text)?;
        Ok(Text::of(text))
    }

    /// Appends each of these writable variables.
    fn put_settings<S: Stream>(
        &mut self,
        stream: &mut S,
        ups: &Word<'_>,
        rows: &[Fields],
        text: &mut Vec<u8>,
    ) -> Result<(), ToolFailure>
        ensures { Goes (settings ups.now text.old.items rows.now) (λ _. Prints text.new.items) result
            (point S.remaining S.taken S.has_ended self.old.unread stream.old)
            (point S.remaining S.taken S.has_ended self.new.unread stream.new) }
    {
        for row in rows {
            self.put_setting(stream, ups, row, text)?;
        }
        Ok(())
    }

    /// Asks for the type of a writable variable, and appends what is shown of it.
    fn put_setting<S: Stream>(
        &mut self,
        stream: &mut S,
        ups: &Word<'_>,
        row: &Fields,
        text: &mut Vec<u8>,
    ) -> Result<(), ToolFailure>
        ensures { (rows : List (List (List ℕ)))
            → Goes (settings ups.now text.old.items (row.now ∷ rows)) (λ _. settings ups.now text.new.items rows) result
            (point S.remaining S.taken S.has_ended self.old.unread stream.old)
            (point S.remaining S.taken S.has_ended self.new.unread stream.new) }
    {
        let (ups_name, variable) = (ups.copy(), name_of(row));
        let kind = self.words(
            stream,
            &Request::GetType {
                ups: ups_name,
                variable,
            },
        )?;
        put_heading(text, row, &kind)?;
        self.put_values(stream, ups, row, &kind, text)?;
        put_line(text, &[])?;
        Ok(())
    }

    /// Asks which values a variable of this type may have, and appends them.
    fn put_values<S: Stream>(
        &mut self,
        stream: &mut S,
        ups: &Word<'_>,
        row: &Fields,
        kind: &Fields,
        text: &mut Vec<u8>,
    ) -> Result<(), ToolFailure>
        ensures { (next : List ℕ → Script)
            → Goes (with_values ups.now (word 0 row.now) (values_meant kind.now) text.old.items next) (λ _. next text.new.items) result
            (point S.remaining S.taken S.has_ended self.old.unread stream.old)
            (point S.remaining S.taken S.has_ended self.new.unread stream.new) }
    {
        let (ups, variable) = (ups.copy(), name_of(row));
        match values_of(kind) {
            AllowedValues::Enum => {
                self.put_list(
                    stream,
                    ListQuery::Enum { ups, variable },
                    RowForm::Options,
                    text,
                )
            }
            AllowedValues::Range => {
                self.put_list(
                    stream,
                    ListQuery::Range { ups, variable },
                    RowForm::Ranges,
                    text,
                )
            }
            AllowedValues::Free => Ok(()),
        }
    }

    /// Lists, and appends a line for each row.
    fn put_list<S: Stream>(
        &mut self,
        stream: &mut S,
        query: ListQuery<'_>,
        form: RowForm,
        text: &mut Vec<u8>,
    ) -> Result<(), ToolFailure>
        ensures { (next : List ℕ → Script)
            → Goes (Asks (Lists query.entry) (on_rows (λ rows. next (text.old.items ++ row_lines form rows))))
            (λ _. next text.new.items) result
            (point S.remaining S.taken S.has_ended self.old.unread stream.old)
            (point S.remaining S.taken S.has_ended self.new.unread stream.new) }
    {
        let rows = self.rows(stream, query)?;
        put_rows(text, form, rows.as_slice())?;
        Ok(())
    }

    /// Shows all commands, each with its description.
    fn commands<S: Stream>(&mut self, stream: &mut S, ups: Word<'_>) -> Result<Text, ToolFailure>
        ensures { Goes (script ups.entry Commands) Prints result
            (point S.remaining S.taken S.has_ended self.old.unread stream.old)
            (point S.remaining S.taken S.has_ended self.new.unread stream.new) }
    {
        let rows = self.rows(stream, ListQuery::Cmd { ups: ups.copy() })?;
        let mut text = Vec::new(self.alloc);
        self.put_commands(stream, &ups, rows.as_slice(), &mut text)?;
        Ok(Text::of(text))
    }

    /// Appends each of these commands.
    fn put_commands<S: Stream>(
        &mut self,
        stream: &mut S,
        ups: &Word<'_>,
        rows: &[Fields],
        text: &mut Vec<u8>,
    ) -> Result<(), ToolFailure>
        ensures { Goes (commands ups.now text.old.items rows.now) (λ _. Prints text.new.items) result
            (point S.remaining S.taken S.has_ended self.old.unread stream.old)
            (point S.remaining S.taken S.has_ended self.new.unread stream.new) }
    {
        for row in rows {
            self.put_command(stream, ups, row, text)?;
        }
        Ok(())
    }

    /// Asks for the description of a command, and appends both.
    fn put_command<S: Stream>(
        &mut self,
        stream: &mut S,
        ups: &Word<'_>,
        row: &Fields,
        text: &mut Vec<u8>,
    ) -> Result<(), ToolFailure>
        ensures { (rows : List (List (List ℕ)))
            → Goes (commands ups.now text.old.items (row.now ∷ rows)) (λ _. commands ups.now text.new.items rows) result
            (point S.remaining S.taken S.has_ended self.old.unread stream.old)
            (point S.remaining S.taken S.has_ended self.new.unread stream.new) }
    {
        let (ups, command) = (ups.copy(), name_of(row));
        let words = self.words(stream, &Request::GetCmdDesc { ups, command })?;
        put_line(text, &[row.get(0), b" - ", words.get(0)])?;
        Ok(())
    }
}
