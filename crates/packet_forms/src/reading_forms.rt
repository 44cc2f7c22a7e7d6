//! A source of packets over a source of units.
//!
//! It reads on where a read brought no byte of a packet, since `Ok(0)` is the end, and the end is that of the file. At
//! most sixteen bytes are between two packets, so it ends. It keeps no bytes: they go into the caller's places, and are
//! moved there once. A file that was read before is taken as one whose next byte begins a unit.
ghost use Rattle.std.specs.Prelude.{◌≡◌, ◌<◌, ◌+◌, ℕ};
ghost use Rattle.packet_forms.specs.Stripped.{unit, to_packet};
ghost use Rattle.packet_forms.specs.FormView.{form_view, came, place_behind};
ghost use Rattle.ts_outside.specs.Told.{before};
ghost use Rattle.std.proofs.Props.{props};

use crate::{Form, strip};
use std::snapshot::Snapshot;
use ts_outside::{Failed, Source};

/// The packets of another source, without the bytes before and after each.
///
/// It allocates nothing: what is read goes straight into the caller's slice, and is moved there once. The
/// other source is never asked for more bytes at a time than the slice has.
pub struct FormSource<S: Source> {
    source: S,
    form: Form,
    /// The number of bytes of a unit that came before the next byte.
    at: usize,
    /// The other source as it was when it was taken; known to contracts alone.
    first: Snapshot<S>,
    ghost in_unit: { at < unit form },
    ghost behind: { (S.seen first.value).left
        ≡ before (came (S.seen first.value).left (S.seen source).left) (S.seen source).left } by { Prim.hlevel props },
    ghost place: { at ≡ place_behind form at (S.seen first.value).left (S.seen source).left },
}

/// The result of one read of the other source.
#[derive(Clone, Copy)]
struct Brought {
    /// The number of bytes read; 0 at the end.
    count: usize,
    /// The number of them that belong to packets; they are at the front.
    kept: usize,
}

impl<S: Source> FormSource<S> {
    ghost use Rattle.std.specs.Prelude.{◌≤◌, [], length, take, MatchResult, IfSome};
    ghost use Rattle.ts_outside.specs.Source.{unread, read_failed};
    ghost use Rattle.packet_forms.specs.FormView.{ReadsThrough};

    /// The packets of a source whose next byte begins a unit of this form.
    pub fn new(source: S, form: Form) -> FormSource<S>
        ensures inner { result.source ≡ source }
        ensures seen { ⟦<FormSource<S> as Source>⟧.seen result ≡ form_view form 0 (S.seen source) (S.seen source) }
    {
        let first = Snapshot::of(&source);
        FormSource {
            source,
            form,
            at: 0,
            first,
        }
    }

    /// Returns the other source as it is. What is left of it begins after the last byte that was read, within a unit
    /// or between two.
    pub fn into_inner(self) -> S
        ensures inner { result ≡ self.source }
        ensures through { ReadsThrough (⟦<FormSource<S> as Source>⟧.seen self) (S.seen result) }
    {
        let FormSource {
            source,
            form: _,
            at: _,
            first: _,
        } = self;
        source
    }

    /// Reads the other source once, and moves the bytes of packets to the front.
    fn read_once(&mut self, into: &mut [u8]) -> Result<Brought, Failed>
        requires { 0 < length into.old }
        ensures { MatchResult result
            (λ brought. (brought.count ≤ length into.new) × (brought.kept ≤ brought.count)
            × (⟦<FormSource<S> as Source>⟧.seen self.old ≡ unread (take brought.kept into.new) (⟦<FormSource<S> as Source>⟧.seen self.new))
            × (brought.count ≡ 0 → IfSome (S.seen self.old.source).left (λ l. l ≡ []))
            × (brought.count ≡ 0 → IfSome (S.seen self.new.source).left (λ l. l ≡ []))
            × (brought.kept ≡ 0 → to_packet self.new.form self.new.at + brought.count ≡ to_packet self.old.form self.old.at))
            (λ _. ⟦<FormSource<S> as Source>⟧.seen self.new ≡ read_failed (⟦<FormSource<S> as Source>⟧.seen self.old)) }
    {
        let count = self.source.read(into)?;
        let kept = strip(self.form, self.at, &mut into[..count]);
        self.at = (self.at + count) % self.form.unit();
        Ok(Brought { count, kept })
    }
}

impl<S: Source> Source for FormSource<S> {
    ghost use Rattle.std.specs.Prelude.{◌≤◌, [], length, take, IfOk, OnErr, IfSome};
    ghost use Rattle.ts_outside.specs.Source.{unread, read_failed};

    ghost seen = { λ f. form_view f.form f.at (S.seen f.first.value) (S.seen f.source) };

    /// Reads until there is a byte of a packet, or the other source is at its end. So `Ok(0)` means that end, and not that
    /// the bytes of one read were all between two packets.
    fn read(&mut self, into: &mut [u8]) -> Result<usize, Failed>
        requires { 0 < length into.old }
        ensures within { IfOk result (λ n. n ≤ length into.new) }
        ensures moved { IfOk result (λ n. form_view self.old.form self.old.at (S.seen self.old.first.value) (S.seen self.old.source)
            ≡ unread (take n into.new) (form_view self.new.form self.new.at (S.seen self.new.first.value) (S.seen self.new.source))) }
        ensures end { IfOk result (λ n. n ≡ 0
            → IfSome (form_view self.old.form self.old.at (S.seen self.old.first.value) (S.seen self.old.source)).left (λ l. l ≡ [])) }
        ensures failed { OnErr result (form_view self.new.form self.new.at (S.seen self.new.first.value) (S.seen self.new.source)
            ≡ read_failed (form_view self.old.form self.old.at (S.seen self.old.first.value) (S.seen self.old.source))) }

        // The end is that of the other source.
        ensures inner_end { IfOk result (λ n. n ≡ 0 → IfSome (S.seen self.new.source).left (λ l. l ≡ [])) }
    {
        loop {
            let brought = self.read_once(into)?;
            if brought.count == 0 {
                return Ok(0);
            }
            if brought.kept > 0 {
                return Ok(brought.kept);
            }
        }
    }
}
