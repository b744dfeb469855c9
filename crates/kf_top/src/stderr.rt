//! The lines on standard error.

ghost use Rattle.std.specs.Prelude.{◌≡◌, ◌≤◌, ◌++◌, [], codes};
ghost use Rattle.std.specs.Fmt.{decimal};
ghost use Rattle.std.specs.List.{flat_map};
ghost use Rattle.kf_gain.specs.declared.error.TableError.TheVariants as table;
ghost use Rattle.kf_cert.specs.declared.cert.CertError.TheVariants as cert;
ghost use Rattle.kf_load.specs.Steps.{message};
ghost use Rattle.kf_load.specs.Stops.{placed, refused as load_refused};
ghost use Rattle.kf_top.specs.Answer.{table_word, cert_word};
ghost use Rattle.kf_top.specs.Stops.{refused};
ghost use Rattle.kf_top.specs.Ends.{sunk, TookLine};
ghost use Rattle.kf_top.specs.Written.{TookNotice, notice_line};

use crate::end::{End, Notice};
use crate::refusal::Refusal;
use itoa::Buffer;
use kf_cert::CertError;
use kf_gain::TableError;
use kf_io::{Sink, write_pieces};
use kf_load::Refusal as LoadRefusal;

// Writes pieces of a line one after the other. A fault of err changes nothing else.
fn write_line<E: Sink>(err: &mut E, pieces: &[&str])
    ensures { TookLine (sunk E.taken E.faults E.room err.old err.new) (flat_map (λ piece. piece.now) pieces.now) }
{
    let _ = write_pieces(err, pieces);
}

// Writes a line.
fn write_message<E: Sink>(err: &mut E, name: &str, what: &str)
    ensures { TookLine (sunk E.taken E.faults E.room err.old err.new) (message name.now what.now) }
{
    write_line(err, &["kuifje: ", name, what, "\n"]);
}

// Writes what is wrong with a file's text or program, and where.
fn write_place<E: Sink>(err: &mut E, name: &str, line: u32, column: u32, word: &str)
    ensures { TookLine (sunk E.taken E.faults E.room err.old err.new) (message name.now (placed line column word.now)) }
{
    let mut line_digits = Buffer::new();
    let mut column_digits = Buffer::new();
    let line = line_digits.format(line);
    let column = column_digits.format(column);
    write_line(
        err,
        &["kuifje: ", name, ":", line, ":", column, ": ", word, "\n"],
    );
}

// Writes which rule of form a table or a certificate breaks.
fn write_form<E: Sink>(err: &mut E, name: &str, rule: u8)
    ensures { TookLine (sunk E.taken E.faults E.room err.old err.new) (message name.now (codes ": " ++ table_word (table.Form rule))) }
{
    let mut digits = Buffer::new();
    let rule = digits.format(rule);
    write_line(err, &["kuifje: ", name, ": Form ", rule, "\n"]);
}

// Writes why a file is no gain table; want of memory is no reason.
fn write_table<E: Sink>(err: &mut E, name: &str, error: TableError)
    ensures { TookLine (sunk E.taken E.faults E.room err.old err.new) (message name.now (codes ": " ++ table_word error)) }
{
    match error {
        TableError::Json => write_message(err, name, ": Json"),
        TableError::Form { rule } => write_form(err, name, rule),
        TableError::Wide => write_message(err, name, ": Wide"),
        TableError::Unknown => write_message(err, name, ": Unknown"),
        TableError::Twice => write_message(err, name, ": Twice"),
        TableError::Empty => write_message(err, name, ": Empty"),
        TableError::Mem => write_message(err, name, ": "),
    }
}

// Writes why a file is no certificate; want of memory is no reason.
fn write_cert<E: Sink>(err: &mut E, name: &str, error: CertError)
    ensures { TookLine (sunk E.taken E.faults E.room err.old err.new) (message name.now (codes ": " ++ cert_word error)) }
{
    match error {
        CertError::Json => write_message(err, name, ": Json"),
        CertError::Form { rule } => write_form(err, name, rule),
        CertError::Wide => write_message(err, name, ": Wide"),
        CertError::Mem => write_message(err, name, ": "),
    }
}

// Writes how many cells a tableau has.
fn write_cells<E: Sink>(err: &mut E, cells: u128)
    ensures { TookLine (sunk E.taken E.faults E.room err.old err.new) (message [] (codes "tableau has " ++ (decimal cells ++ codes " cells"))) }
{
    let mut digits = Buffer::new();
    let cells = digits.format(cells);
    write_line(err, &["kuifje: tableau has ", cells, " cells\n"]);
}

// Writes how many cells two channels have in parallel.
fn write_channel_cells<E: Sink>(err: &mut E, cells: u128)
    ensures { TookLine (sunk E.taken E.faults E.room err.old err.new) (message [] (codes "channel has " ++ (decimal cells ++ codes " cells"))) }
{
    let mut digits = Buffer::new();
    let cells = digits.format(cells);
    write_line(err, &["kuifje: channel has ", cells, " cells\n"]);
}

// Writes after how many pivots a tableau's numbers are too wide.
fn write_pivots<E: Sink>(err: &mut E, pivots: u32)
    ensures { TookLine (sunk E.taken E.faults E.room err.old err.new) (message [] (codes "tableau passes 2^62 after " ++ (decimal pivots ++ codes " pivots"))) }
{
    let mut digits = Buffer::new();
    let pivots = digits.format(pivots);
    write_line(
        err,
        &["kuifje: tableau passes 2^62 after ", pivots, " pivots\n"],
    );
}

// Writes how many stores the variables of a file's program have.
fn write_stores<E: Sink>(err: &mut E, name: &str, stores: u128)
    ensures { TookLine (sunk E.taken E.faults E.room err.old err.new) (message name.now (codes ": " ++ (decimal stores ++ codes " stores"))) }
{
    let mut digits = Buffer::new();
    let stores = digits.format(stores);
    write_line(err, &["kuifje: ", name, ": ", stores, " stores\n"]);
}

// Writes how many statements a file's program has at its top level.
fn write_statements<E: Sink>(err: &mut E, name: &str, statements: usize)
    ensures { TookLine (sunk E.taken E.faults E.room err.old err.new) (message name.now (codes ": " ++ (decimal statements ++ codes " statements"))) }
{
    let mut digits = Buffer::new();
    let statements = digits.format(statements);
    write_line(err, &["kuifje: ", name, ": ", statements, " statements\n"]);
}

// Writes why a file holds no program that can be run.
fn write_unloaded<E: Sink>(err: &mut E, refusal: &LoadRefusal<'_>)
    ensures { TookLine (sunk E.taken E.faults E.room err.old err.new) (load_refused refusal.now).line }
{
    match refusal {
        LoadRefusal::ReadFailed(name) => write_message(err, name, ": read failed"),
        LoadRefusal::TooLong(name) => write_message(err, name, ": longer than 1048576 bytes"),
        LoadRefusal::BadText(name, line, column, word) => write_place(
            err, name, *line, *column, word,
        ),
        LoadRefusal::BadRun(name, line, column, word) => write_place(
            err, name, *line, *column, word,
        ),
        LoadRefusal::WideScale(name) => write_message(err, name, ": scale passes 2^127 - 1"),
        LoadRefusal::FewStatements(name, statements) => write_statements(err, name, *statements),
    }
}

// Writes why there is no answer.
fn write_refusal<E: Sink>(err: &mut E, refusal: &Refusal<'_>)
    ensures { TookLine (sunk E.taken E.faults E.room err.old err.new) (refused refusal.now).line }
{
    match refusal {
        Refusal::Load(refusal) => write_unloaded(err, refusal),
        Refusal::NotInitial => write_message(err, "", "target is not initial"),
        Refusal::BadTable(name, error) => write_table(err, name, *error),
        Refusal::WideGain => write_message(err, "", "gain passes 2^127 - 1"),
        Refusal::OtherTarget => write_message(err, "", "targets differ"),
        Refusal::ManyCells(cells) => write_cells(err, *cells),
        Refusal::WideTableau(pivots) => write_pivots(err, *pivots),
        Refusal::ManyPivots => write_message(err, "", "more than 20000 pivots"),
        Refusal::BadCert(name, error) => write_cert(err, name, *error),
        Refusal::WideCert => write_message(err, "", "certificate passes 2^127 - 1"),
        Refusal::OtherRows => write_message(err, "", "rows differ"),
        Refusal::NoFit => write_message(err, "", "channels do not fit"),
        Refusal::ManyChannelCells(cells) => write_channel_cells(err, *cells),
        Refusal::WideChannel => write_message(err, "", "channel passes 2^127 - 1"),
        Refusal::ManyStores(name, stores) => write_stores(err, name, *stores),
    }
}

// Writes the line of a notice.
fn write_notice<E: Sink>(err: &mut E, notice: &Notice<'_>)
    ensures { TookLine (sunk E.taken E.faults E.room err.old err.new) (notice_line notice.now) }
{
    match notice {
        Notice::Usage => write_message(
            err,
            "",
            "usage: kuifje COMMAND [FILES] [--gain G] [--turns N] [--json]",
        ),
        Notice::Refused(refusal) => write_refusal(err, refusal),
        Notice::WriteFailed => write_message(err, "", "write failed"),
        Notice::Mem => write_message(err, "", "want of memory"),
    }
}

/// The last step of a run: writes the line, if there is one, and gives the status that it was given, whatever becomes of the line.
pub(crate) fn report<E: Sink>(end: End<'_>, err: &mut E) -> u8
    ensures status { result ≡ end.entry.status }
    ensures line { TookNotice end.entry.notice (sunk E.taken E.faults E.room err.old err.new) }
{
    if let Some(notice) = &end.notice {
        write_notice(err, notice);
    }
    end.status
}
