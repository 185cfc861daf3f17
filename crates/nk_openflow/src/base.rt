//! What every packet is that lines are for.
ghost use Rattle.std.specs.Prelude.{◌≡◌};
ghost use Rattle.nk_openflow.specs.Bases as specs;

/// What every packet is that lines are for: a word that Open vSwitch has for an Ethernet type, with or without a protocol over
/// it.
#[derive(Clone, Copy, PartialEq, Eq, Debug)]
pub enum Base {
    /// Nothing is known.
    Any,
    /// IPv4.
    Ip,
    /// TCP over IPv4.
    Tcp,
    /// UDP over IPv4.
    Udp,
    /// ICMP over IPv4.
    Icmp,
    /// ARP.
    Arp,
    /// IPv6.
    Ipv6,
    /// TCP over IPv6.
    Tcp6,
    /// UDP over IPv6.
    Udp6,
    /// MPLS.
    Mpls,
}

impl Base {
    /// The word; empty for `Any`.
    pub fn keyword(self) -> &'static str
        ensures { result.now ≡ specs.keyword_of self }
    {
        match self {
            Base::Any => "",
            Base::Ip => "ip",
            Base::Tcp => "tcp",
            Base::Udp => "udp",
            Base::Icmp => "icmp",
            Base::Arp => "arp",
            Base::Ipv6 => "ipv6",
            Base::Tcp6 => "tcp6",
            Base::Udp6 => "udp6",
            Base::Mpls => "mpls",
        }
    }

    /// Whether a packet has an IPv4 header.
    pub fn is_ipv4(self) -> bool
        ensures { result ≡ specs.is_ipv4 self }
    {
        matches!(self, Base::Ip | Base::Tcp | Base::Udp | Base::Icmp)
    }

    /// Whether a packet has an IPv6 header.
    pub fn is_ipv6(self) -> bool
        ensures { result ≡ specs.is_ipv6 self }
    {
        matches!(self, Base::Ipv6 | Base::Tcp6 | Base::Udp6)
    }

    /// Whether a packet has a TCP header.
    pub fn is_tcp(self) -> bool
        ensures { result ≡ specs.is_tcp self }
    {
        matches!(self, Base::Tcp | Base::Tcp6)
    }

    /// Whether a packet has a UDP header.
    pub fn is_udp(self) -> bool
        ensures { result ≡ specs.is_udp self }
    {
        matches!(self, Base::Udp | Base::Udp6)
    }
}

/// The base of a word, if it is one.
pub(crate) fn base_named(word: &str) -> Option<Base>
    ensures { result ≡ specs.base_named word.now }
{
    if word == "ip" {
        Some(Base::Ip)
    } else if word == "tcp" {
        Some(Base::Tcp)
    } else if word == "udp" {
        Some(Base::Udp)
    } else if word == "icmp" {
        Some(Base::Icmp)
    } else if word == "arp" {
        Some(Base::Arp)
    } else {
        late_base(word)
    }
}

/// The base of a word, if it is one, of those that `base_named` doesn't try itself.
fn late_base(word: &str) -> Option<Base>
    ensures { result ≡ specs.late_base word.now }
{
    if word == "ipv6" {
        Some(Base::Ipv6)
    } else if word == "tcp6" {
        Some(Base::Tcp6)
    } else if word == "udp6" {
        Some(Base::Udp6)
    } else if word == "mpls" {
        Some(Base::Mpls)
    } else {
        None
    }
}
