//! Laws of packets that are found again.
ghost use Rattle.std.specs.Prelude.{◌≡◌, ◌+◌, ◌*◌, ◌≤◌, ℕ, List, Bool, true, ◌++◌, length, drop};
ghost use Rattle.std.specs.List.{concat};
ghost use Rattle.packet_forms.specs.declared.forms.Form.{Form};
ghost use Rattle.packet_forms.specs.Stripped.{unit, stripped};
ghost use Rattle.packet_search.specs.Rule.{in_row};
ghost use Rattle.packet_search.specs.Search.{Found, with_found, search, packets_in, units_at};
ghost use Rattle.packet_search.specs.Standing.{StandIn, IsAlone};
ghost use Rattle.packet_search.specs.Settled.{Settled};

/// A file without damage gives what it gives anyway, and nothing is left out: so many whole units, of which the last
/// may lack what stands behind its packet, give as many packets, and these are what is left of the file without the
/// bytes before and after each. So does the beginning of a file as far as five units are in a row. A law; it runs
/// nothing.
pub fn files_without_damage()
    ensures packets { (form : Form) (n : ℕ) (bytes : List ℕ) → in_row form n bytes ≡ true → length bytes ≤ n * unit form
        → search form bytes ≡ record { found = units_at form 0 n bytes; behind = 0 } }
    ensures same { (form : Form) (n : ℕ) (bytes : List ℕ) → in_row form n bytes ≡ true → length bytes ≤ n * unit form
        → concat (packets_in (search form bytes).found) ≡ stripped form bytes }
    ensures begins { (form : Form) (n : ℕ) (bytes : List ℕ) → in_row form (n + 4) bytes ≡ true
        → search form bytes ≡ with_found (units_at form 0 n bytes) (search form (drop (n * unit form) bytes)) }
{}

/// Each packet is that of a whole unit of the bytes. The units come in their order, none has a byte of another, and
/// what is left out is all that stands before, between and behind them. A law; it runs nothing.
pub fn packets_stand_in_the_bytes()
    ensures { (form : Form) (bytes : List ℕ) → StandIn form (search form bytes).found (search form bytes).behind bytes }
{}

/// After any bytes a run of five units or more is found from its first packet on, with nothing left out in it, unless
/// two of four units at the pitch are whole from another byte of its first unit on: all of it where the file ends
/// behind it, and all but the last four packets whatever follows. A law; it runs nothing.
pub fn runs_found_again()
    ensures ending { (form : Form) (n : ℕ) (junk run : List ℕ) → 5 ≤ n → in_row form n run ≡ true → length run ≤ n * unit form
        → IsAlone form run → (before : List Found) × (left : ℕ)
        × (search form (junk ++ run) ≡ with_found before (record { found = units_at form left n run; behind = 0 })) }
    ensures followed { (form : Form) (n : ℕ) (junk run : List ℕ) → 1 ≤ n → in_row form (n + 4) run ≡ true → IsAlone form run
        → (before : List Found) × (left : ℕ)
        × (search form (junk ++ run) ≡ with_found before (with_found (units_at form left n run) (search form (drop (n * unit form) run)))) }
{}

/// Fewer than six units of bytes are not decided yet: of the first bytes of a file all but these are settled, whatever
/// follows. So a first part of the bytes gives a first part of the packets. A law; it runs nothing.
pub fn first_bytes_decide()
    ensures { (form : Form) (bytes : List ℕ) → Settled form 0 true 0 bytes }
{}
