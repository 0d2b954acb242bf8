//! The text of a certificate.
ghost use Rattle.std.specs.Prelude.{length};
ghost use Rattle.std.specs.List.{flat_map};
ghost use Rattle.route_io.specs.Sinks.{Sends};
ghost use Rattle.answer_writer.specs.Pages.{Gathers};
ghost use Rattle.front_cert.specs.Listing.{line_of};
ghost use Rattle.cert_writer.specs.Text.{cert_text, heading_line, label_line};

use answer_writer::{Page, Piece};
use cost_vector::Label;
use front_cert::Listing;
use route_io::{Sink, WriteFault};
use walk_readback::FoundCosts;

/// Sends the text of a certificate, or a part of it from the front and answers the sink's fault. It takes no memory: lines are
/// gathered on a page and sent when it is full.
pub fn write_cert<K: Sink>(sink: &mut K, listing: &Listing) -> Result<(), WriteFault>
    ensures { Sends (K.state sink.old) (K.state sink.new)
        (cert_text listing.now.criteria listing.now.cert) result }
{
    let mut page = Page::new();
    put_heading(&mut page, sink, listing)?;
    put_labels(&mut page, sink, listing)?;
    page.send(sink)
}

/// Puts the first line.
fn put_heading<K: Sink>(page: &mut Page, sink: &mut K, listing: &Listing) -> Result<(), WriteFault>
    ensures { Gathers (K.state sink.old) (K.state sink.new) page.old page.new
        (heading_line listing.now.criteria listing.now.cert) result }
{
    use Piece::{Number, Text};
    page.put_pieces(
        sink,
        &[
            Text("z"),
            Number(listing.criteria() as u64),
            Number(u64::from(listing.start().0)),
            Number(u64::from(listing.target().0)),
            Number(listing.len() as u64),
            Text("\n"),
        ],
    )
}

/// Puts the line of each label.
fn put_labels<K: Sink>(page: &mut Page, sink: &mut K, listing: &Listing) -> Result<(), WriteFault>
    ensures { Gathers (K.state sink.old) (K.state sink.new) page.old page.new
        (flat_map label_line listing.now.cert.labels) result }
{
    for i in 0..listing.len() {
        put_label(page, sink, &listing.label(i))?;
    }
    Ok(())
}

/// Puts the line of a label.
fn put_label<K: Sink>(page: &mut Page, sink: &mut K, label: &Label) -> Result<(), WriteFault>
    ensures { Gathers (K.state sink.old) (K.state sink.new) page.old page.new
        (label_line (line_of label.now)) result }
{
    use Piece::{Number, Text};
    page.put_pieces(
        sink,
        &[
            Text("b"),
            Number(u64::from(label.node.0)),
            Number(u64::from(label.arc.0)),
            Piece::Cost(&label.cost),
            Text("\n"),
        ],
    )
}
