//! A signature line as it is written again.
ghost use Rattle.std.specs.Prelude.{MatchOption};
ghost use Rattle.gix_date_tool.specs.Signed.{IsSigned, IsUnsigned};
ghost use Rattle.streams.specs.Lines.{with_newline};
ghost use Rattle.streams.specs.Outbox.{Sends, output};

use gix_date::device::Sink;
use gix_date::parsing::TimeBuf;
use gix_signature::SignatureRef;
use std::io;
use std::marker::Model;
use streams::Outbox;

/// The line of a name, an email and the text of a time. Contracts see its text.
#[derive(Drop)]
pub(crate) struct SignedLine<'a> {
    name: &'a str,
    email: &'a str,
    time: TimeBuf,
}

impl<'a> Model for SignedLine<'a> {
    ghost use Rattle.std.specs.Prelude.{ℕ, List};
    ghost use Rattle.gix_date.specs.Header.TimeBuf.{text_in};
    ghost use Rattle.gix_signature.specs.Signature.{line_of};

    ghost Value = { List ℕ };

    ghost view = { λ s. line_of (record {
      name = s.name.now;
      email = s.email.now;
      time = text_in s.time;
    }) };
}

impl SignedLine<'_> {
    /// Puts the line, and a newline, after what is unsent.
    pub(crate) fn push_to<W: Sink>(
        self,
        outbox: &mut Outbox,
        out: &mut W,
    ) -> Result<(), io::ErrorKind>
        ensures { Sends (output outbox.old (W.known out.old)) (output outbox.new (W.known out.new))
            (with_newline self.entry) result }
    {
        let SignedLine { name, email, time } = self;
        outbox.push(&[name, " <", email, "> ", time.as_str(), "\n"], out)
    }
}

/// The line that is written of a signature line's name, email and time. `None` where the text has no cut, where no time
/// is read from its last part, and where the offset of that time is 100 hours or more.
#[tactic(auto, using(crate::proofs::Signing::no_cut_unsigned, crate::proofs::Signing::no_time_unsigned, crate::proofs::Signing::wide_unsigned))]
pub(crate) fn sign(text: &str) -> Option<SignedLine<'_>>
    ensures { MatchOption result (IsUnsigned text.now) (IsSigned text.now) }
{
    let Some(signature) = SignatureRef::from_line(text) else {
        return None;
    };
    let Some(time) = signature.time_of() else {
        return None;
    };
    let Ok(time) = time.to_buf() else {
        return None;
    };
    Some(SignedLine {
        name: signature.name,
        email: signature.email,
        time,
    })
}
