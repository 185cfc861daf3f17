//! Answers that follow a packet through the tables of a text.
ghost use Rattle.std.specs.Prelude.{◌≡◌, ◌++◌, ℕ, List, IfOk, OnOk, Ok};
ghost use Rattle.nk_field.specs.Texts.{packet_of};
ghost use Rattle.nk_lex.specs.declared.token.Token.{Token};
ghost use Rattle.nk_lex.specs.Lex.{tokens_of};
ghost use Rattle.nk_tabtext.specs.Progress.{IsTaken};
ghost use Rattle.nk_tabtext.specs.Values.{tables_of, tables_of_tokens};
ghost use Rattle.nk_reply.specs.Meant.{IsMeantBy};
ghost use Rattle.nk_input.specs.Pieces.{IsLexedAs};
ghost use Rattle.nk_reply.specs.Reply.{answer_in, outcome_of, IsReplyOf};
ghost use Rattle.nk_reply.specs.Use.{use_of};
ghost use Rattle.nk_trace_commands.specs.Following.{ToPacket, ToTables, counts_line, history_line, item_line};

use itoa::Buffer;
use nk_field::{Fields, History, Packet, PacketError, history_text, read_packet};
use nk_input::{Lexed, TokenReader, read_pieces, text_fault};
use nk_io::Source;
use nk_lex::Token;
use nk_reply::{CommandAnswer, Reply};
use nk_sim::is_located;
use nk_table::Tables;
use nk_tabtext::{ReadError as TableError, TableReader};
use std::alloc::{AllocError, Global};

/// What is told of a packet at a port of tables.
pub trait Follow {
    ghost use Rattle.std.specs.Prelude.{List, ℕ};
    ghost use Rattle.nk_table.specs.declared.Tables.{Tables};
    ghost use Rattle.nk_reply.specs.Outcome.{Outcome};

    ghost tells: { Self → Tables → List ℕ → Outcome → Type 0 };

    fn follow(
        &self,
        alloc: Global,
        t: &Tables,
        packet: &Packet,
    ) -> Result<CommandAnswer, AllocError>
        ensures { IfOk result (λ s. tells self.now t.now packet.now (outcome_of s)) };
}

/// A table text whose tokens are taken one by one.
#[derive(Drop)]
struct TableTokens {
    reader: TableReader,
}

impl TokenReader for TableTokens {
    ghost use Rattle.nk_tabtext.specs.Progress.{IsTaken};

    ghost has_taken = { λ text tokens. IsTaken tokens text.reader };

    fn take(&mut self, alloc: Global, token: &Token) -> Result<(), AllocError> {
        self.reader.take(alloc, token)
    }
}

/// What following a packet means to say, over a source that gives a table text, whose tokens are taken as they come. The packet
/// is that of a word as `sw=1,pt=2,dst=3`.
pub fn follow_word<S: Source, F: Follow>(
    alloc: Global,
    how: &F,
    word: &str,
    source: &mut S,
) -> Reply
    ensures { IsMeantBy (λ bytes. ToTables (F.tells how.now) (tables_of bytes) word.now)
        (use_of S.left S.faults source.old source.new) (answer_in result) }
{
    let mut tokens = match TableReader::new(alloc) {
        Ok(reader) => TableTokens { reader },
        Err(_) => return Reply::NoMemory,
    };
    match read_pieces(alloc, source, &mut tokens) {
        Ok(lexed) => reply_to_text(alloc, how, word, lexed, tokens.reader),
        Err(error) => Reply::unread(error),
    }
}

/// What following a packet means to say, over a text that has a lexical fault, or all of whose tokens the reader has taken.
fn reply_to_text<F: Follow>(
    alloc: Global,
    how: &F,
    word: &str,
    lexed: Lexed,
    reader: TableReader,
) -> Reply
    ensures { (bytes : List ℕ) → IsLexedAs (λ tokens. IsTaken tokens reader) lexed (tokens_of bytes)
        → IsReplyOf (ToTables (F.tells how.now) (tables_of bytes) word.now) result }
{
    match answer_to_text(alloc, how, word, lexed, reader) {
        Ok(said) => Reply::CommandAnswer(said),
        Err(_) => Reply::NoMemory,
    }
}

/// The answer to it, where memory doesn't run out.
fn answer_to_text<F: Follow>(
    alloc: Global,
    how: &F,
    word: &str,
    lexed: Lexed,
    reader: TableReader,
) -> Result<CommandAnswer, AllocError>
    ensures { (bytes : List ℕ) → IsLexedAs (λ tokens. IsTaken tokens reader) lexed (tokens_of bytes)
        → IfOk result (λ s. ToTables (F.tells how.now) (tables_of bytes) word.now (outcome_of s)) }
{
    match lexed {
        Lexed::BadByte { line } => text_fault(alloc, line, "bad byte"),
        Lexed::NumberTooLarge { line } => text_fault(alloc, line, "number too large"),
        Lexed::Whole => answer_to_tokens(alloc, how, word, reader),
    }
}

/// What following a packet answers, where all tokens of a text were taken.
fn answer_to_tokens<F: Follow>(
    alloc: Global,
    how: &F,
    word: &str,
    reader: TableReader,
) -> Result<CommandAnswer, AllocError>
    ensures { (tokens : List Token) → IsTaken tokens reader
        → IfOk result (λ s. ToTables (F.tells how.now) (tables_of_tokens tokens) word.now
        (outcome_of s)) }
{
    match reader.end(alloc) {
        Ok(tables) => answer_to_word(alloc, how, &tables, word),
        Err(TableError::BadByte { line }) => text_fault(alloc, line, "bad byte"),
        Err(TableError::NumberTooLarge { line }) => text_fault(alloc, line, "number too large"),
        Err(TableError::Unexpected { line }) => text_fault(alloc, line, "unexpected"),
        Err(TableError::TableFault { line }) => text_fault(alloc, line, "table fault"),
        Err(TableError::NoMemory) => Err(AllocError),
    }
}

/// What following the packet of a word answers, over tables. A word that gives no packet is refused. The only error is that
/// memory ran out.
pub fn answer_to_word<F: Follow>(
    alloc: Global,
    how: &F,
    t: &Tables,
    word: &str,
) -> Result<CommandAnswer, AllocError>
    ensures { IfOk result (λ s.
        ToPacket (F.tells how.now) t.now (packet_of t.now.fields word.now) (outcome_of s)) }
{
    match read_packet(alloc, &t.fields, word) {
        Ok(packet) => answer_to_packet(alloc, how, t, &packet),
        Err(PacketError::BadPacket { item }) => Ok(CommandAnswer::Refused(item_message(
            alloc, item,
        )?)),
        Err(PacketError::NoMemory) => Err(AllocError),
    }
}

/// What following a packet answers, over tables. A packet that isn't on a declared port is refused.
fn answer_to_packet<F: Follow>(
    alloc: Global,
    how: &F,
    t: &Tables,
    packet: &Packet,
) -> Result<CommandAnswer, AllocError>
    ensures { IfOk result (λ s. ToPacket (F.tells how.now) t.now (Ok packet.now) (outcome_of s)) }
{
    if !is_located(&t.topo, packet) {
        let message = Vec::from_slice(alloc, b"refused C10: off port\n")?;
        return Ok(CommandAnswer::Refused(message));
    }
    how.follow(alloc, t, packet)
}

/// Appends the line of a history.
pub fn push_history(
    alloc: Global,
    out: &mut Vec<u8>,
    fields: &Fields,
    history: &History,
) -> Result<(), AllocError>
    ensures { OnOk result (out.new.items ≡ out.old.items ++ history_line fields.now history.now) }
{
    let text = history_text(alloc, fields, history, false)?;
    out.extend_from_slice(&text)?;
    out.push(b'\n')?;
    Ok(())
}

/// Appends how many histories leave, and how many copies would go on.
pub fn push_counts(out: &mut Vec<u8>, left: usize, flying: u64) -> Result<(), AllocError>
    ensures { OnOk result (out.new.items ≡ out.old.items ++ counts_line left flying) }
{
    let mut buffer = Buffer::new();
    out.extend_from_slice(b"left ")?;
    out.extend_from_slice(buffer.format(left).as_bytes())?;
    out.extend_from_slice(b" flying ")?;
    out.extend_from_slice(buffer.format(flying).as_bytes())?;
    out.extend_from_slice(b"\n")
}

/// The message for a packet's word that is at fault, with its line feed.
fn item_message(alloc: Global, item: u64) -> Result<Vec<u8>, AllocError>
    ensures { IfOk result (λ v. v.items ≡ item_line item) }
{
    let mut buffer = Buffer::new();
    let mut message = Vec::new(alloc);
    message.extend_from_slice(b"refused C9: bad packet, item ")?;
    message.extend_from_slice(buffer.format(item).as_bytes())?;
    message.extend_from_slice(b"\n")?;
    Ok(message)
}
