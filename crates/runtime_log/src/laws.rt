//! Laws of imports. Each law is the contract of a function that does nothing.
ghost use Rattle.runtime_log.specs.LogLaws.{BasicNumbersAreMeant, BlocksAreTaken, LogIsLogged, LoggedIsLog, NumbersAreMeant, ThreadsAreKept};
ghost use Rattle.runtime_log.specs.Laws.{ImportsItself, ImportsRead, OneImport, SomeImport, ThreadsKeepTheirOrder, TracesAreLogs};

use fdr_buffer::{a_body_has_room, segments_hold_all};
use fdr_file::{a_file_is_read_by_records, a_file_reads_back, a_place_is_decoded};

/// A log is imported in one way only: as one file, with one text.
pub fn one_import()
    ensures { OneImport }
{}

/// Each log is imported in some way.
pub fn some_import()
    ensures { SomeImport }
{}

/// The file of an import reads as the trace of the blocks that are taken of the log: it has exactly
/// their events, in their order.
pub fn an_import_reads_back()
    ensures { ImportsRead }
{
    a_file_reads_back();
    segments_hold_all();
    a_body_has_room();
}

/// The trace of a basic log has the events of each thread as the log has them: none is lost, added,
/// changed or moved among the events of its thread.
pub fn the_threads_of_a_basic_log_keep_their_order()
    ensures { ThreadsKeepTheirOrder }
{
    an_import_reads_back();
    segments_hold_all();
}

/// A trace of version 3 is a log, which says the same blocks.
pub fn traces_are_logs()
    ensures { TracesAreLogs }
{
    a_file_is_read_by_records();
}

/// What is read as a log of the Flight Data Recorder mode is one by the grammar.
pub fn what_is_read_is_a_log()
    ensures { LoggedIsLog }
{
    a_place_is_decoded();
}

/// A log of the Flight Data Recorder mode by the grammar is read as this log. So it isn't another one.
pub fn a_log_is_read()
    ensures { LogIsLogged }
{}

/// Of each thread, the events of the trace that is made of a log of the Flight Data Recorder mode are
/// those of its blocks that are taken, one block after the other.
pub fn threads_keep_their_events()
    ensures { ThreadsAreKept }
{
    an_import_reads_back();
    segments_hold_all();
}

/// The blocks that are taken of a log of the Flight Data Recorder mode are blocks with events, in the
/// order of their keys. Of each block with events, one with the same bytes is taken, and only one.
pub fn each_block_is_taken_once()
    ensures { BlocksAreTaken }
{
    what_is_read_is_a_log();
}

/// The numbers that are printed are those of the log and of the trace that is made of it.
pub fn printed_numbers_are_meant()
    ensures { NumbersAreMeant }
{
    an_import_reads_back();
    segments_hold_all();
}

/// The numbers that are printed of a basic log are those of the trace that is made of it, and nothing
/// is left out.
pub fn printed_numbers_of_a_basic_log_are_meant()
    ensures { BasicNumbersAreMeant }
{
    an_import_reads_back();
    segments_hold_all();
}

/// A trace is imported as itself, byte for byte, if it was written for buffers with events, and these
/// are in the order in which blocks are taken: by their threads, their wall times and their first
/// counters. Two that are level in these must not have the same bytes. The trace that `sim` or `run`
/// wrote is such a one if the counter of no thread falls, and no two segments of a thread are equal.
pub fn a_trace_in_order_is_imported_as_itself()
    ensures { ImportsItself }
{
    a_file_reads_back();
    a_file_is_read_by_records();
}
