//! What holds of the definitions themselves: the function's contract is a law, and its body is empty.
ghost use Rattle.std.specs.Prelude.{ℕ, List, Option, IsTrue};
ghost use Rattle.conf_validate.specs.Forms.{is_log_format};
ghost use Rattle.unit_types.specs.declared.message.Addr.{Addr};
ghost use Rattle.unit_types.specs.declared.message.Request.{Request};
ghost use Rattle.access_log.specs.Line.{IsLogLine, log_line};

/// A line of a format has at most 1,023 bytes, none of which is LF, and LF behind them.
pub fn log_lines_end_once()
    ensures { (format : List ℕ) (from : Addr) (request : Option Request) (status body : ℕ)
        → IsTrue (is_log_format format) → IsLogLine (log_line format from request status body) }
{}
