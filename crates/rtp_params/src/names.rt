ghost use Rattle.std.specs.Prelude.{◌≡◌};
ghost use Rattle.rtp_params.specs.Names.{is_same_name};

/// Whether two names are one, without regard to ASCII case (RFC 6838, section 4.2).
pub fn is_same_name(name: &str, other: &str) -> bool
    ensures { result ≡ is_same_name name.now other.now }
{
    name.eq_ignore_ascii_case(other)
}
