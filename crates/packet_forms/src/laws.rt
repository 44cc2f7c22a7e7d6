//! Laws of files whose bytes before and after each packet are left out.
ghost use Rattle.std.specs.Prelude.{◌≡◌, ◌+◌, ℕ, List, [], ◌++◌, length, take, drop};
ghost use Rattle.packet_forms.specs.declared.forms.Form.{Form};
ghost use Rattle.packet_forms.specs.declared.forms.Form.TheVariants.{Ts};
ghost use Rattle.packet_forms.specs.Stripped.{lead, unit, stripped_from, stripped, packet_bytes};

/// Of each unit the 188 bytes after its lead stay, and of a last unit that is not whole those of them that are
/// there. A file of bare packets stays as it is. A law; it runs nothing.
pub fn packets_of_units()
    ensures none { (form : Form) → stripped form [] ≡ [] }
    ensures units { (form : Form) (bytes : List ℕ)
        → stripped form bytes ≡ take 188 (drop (lead form) (take (unit form) bytes)) ++ stripped form (drop (unit form) bytes) }
    ensures plain { (bytes : List ℕ) → stripped Ts bytes ≡ bytes }
{}

/// Two parts of a file are stripped one by one, the second with its place after the first. The number of bytes of
/// packets is what `packet_bytes` counts, and the first bytes of a file give the first bytes of its packets. A law; it
/// runs nothing.
pub fn parts_of_a_file()
    ensures parts { (form : Form) (first second : List ℕ)
        → stripped form (first ++ second) ≡ stripped form first ++ stripped_from form (length first) second }
    ensures counted { (form : Form) (bytes : List ℕ) → length (stripped form bytes) ≡ packet_bytes form (length bytes) }
    ensures begins { (form : Form) (n : ℕ) (bytes : List ℕ)
        → stripped form (take n bytes) ≡ take (packet_bytes form (length (take n bytes))) (stripped form bytes) }
{}
