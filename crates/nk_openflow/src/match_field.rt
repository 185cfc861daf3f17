//! Match fields of Open vSwitch.
ghost use Rattle.std.specs.Prelude.{◌≡◌, ◌≤◌, ◌<◌};
ghost use Rattle.nk_openflow.specs.MatchFields as specs;

use crate::Base;
use crate::numbers::canonical_upto;

/// A match field of Open vSwitch that a field of tables can be mapped to.
#[derive(Clone, Copy, PartialEq, Eq, Debug)]
pub enum MatchField {
    /// The IPv4 source address.
    NwSrc,
    /// The IPv4 destination address.
    NwDst,
    /// The sender's protocol address of ARP.
    ArpSpa,
    /// The target's protocol address of ARP.
    ArpTpa,
    /// The source port of TCP or UDP.
    TpSrc,
    /// The destination port of TCP or UDP.
    TpDst,
    /// The Ethernet source address.
    DlSrc,
    /// The Ethernet destination address.
    DlDst,
    /// The Ethernet type.
    DlType,
    /// The differentiated services code point, written as the upper six of eight bits.
    NwTos,
    /// The differentiated services code point.
    IpDscp,
    /// The metadata that go from table to table.
    Metadata,
    /// The tunnel's identifier.
    TunId,
    /// The label of the outermost MPLS entry.
    MplsLabel,
    /// The VLAN identifier with the bit that says that there is a VLAN header.
    VlanVid,
    /// A register of 32 bits, 0 to 15.
    Register(u64),
    /// A register of 64 bits, 0 to 7: the registers of 32 bits of twice this number and the next one.
    WideRegister(u64),
}

/// How a value is written.
#[derive(Clone, Copy, PartialEq, Eq, Debug)]
pub enum Notation {
    /// Four numbers with dots between them.
    Dotted,
    /// Six bytes, each of two hexadecimal digits, with colons between them.
    Colons,
    /// A number.
    Number,
}

impl MatchField {
    /// The word that names it; empty for a register, whose number belongs to its name.
    pub(crate) fn keyword(self) -> &'static str
        ensures { result.now ≡ specs.keyword_of self }
    {
        match self {
            MatchField::NwSrc => "nw_src",
            MatchField::NwDst => "nw_dst",
            MatchField::ArpSpa => "arp_spa",
            MatchField::ArpTpa => "arp_tpa",
            MatchField::TpSrc => "tp_src",
            MatchField::TpDst => "tp_dst",
            MatchField::DlSrc => "dl_src",
            MatchField::DlDst => "dl_dst",
            MatchField::DlType => "dl_type",
            MatchField::NwTos => "nw_tos",
            MatchField::IpDscp => "ip_dscp",
            MatchField::Metadata => "metadata",
            MatchField::TunId => "tun_id",
            MatchField::MplsLabel => "mpls_label",
            MatchField::VlanVid => "vlan_vid",
            MatchField::Register(_) => "reg",
            MatchField::WideRegister(_) => "xreg",
        }
    }

    /// How many bits it has, 6 to 64.
    pub(crate) fn width(self) -> u8
        ensures is { result ≡ specs.width_of self }
        ensures small { result ≤ 64 }
    {
        match self {
            MatchField::NwTos | MatchField::IpDscp => 6,
            MatchField::VlanVid => 13,
            MatchField::TpSrc | MatchField::TpDst | MatchField::DlType => 16,
            MatchField::MplsLabel => 20,
            MatchField::DlSrc | MatchField::DlDst => 48,
            MatchField::Metadata | MatchField::TunId | MatchField::WideRegister(_) => 64,
            _ => 32,
        }
    }

    /// The largest value that a table's field may have that is mapped to it.
    pub(crate) fn largest(self) -> u64
        ensures { result ≡ specs.largest_of self }
    {
        match self {
            MatchField::NwTos | MatchField::IpDscp => 63,
            MatchField::VlanVid => 4_094,
            MatchField::TpSrc | MatchField::TpDst | MatchField::DlType => 65_535,
            MatchField::MplsLabel => 1_048_575,
            MatchField::DlSrc | MatchField::DlDst => 281_474_976_710_655,
            MatchField::Metadata | MatchField::TunId | MatchField::WideRegister(_) => u64::MAX,
            _ => 4_294_967_295,
        }
    }

    /// Whether it can be matched under a mask.
    pub(crate) fn is_maskable(self) -> bool
        ensures { result ≡ specs.is_maskable self }
    {
        !matches!(
            self,
            MatchField::DlType | MatchField::NwTos | MatchField::IpDscp | MatchField::MplsLabel
        )
    }

    /// Whether it can be set.
    pub(crate) fn is_writable(self) -> bool
        ensures { result ≡ specs.is_writable self }
    {
        !matches!(self, MatchField::DlType)
    }

    /// How its values are written.
    pub(crate) fn notation(self) -> Notation
        ensures { result ≡ specs.notation_of self }
    {
        match self {
            MatchField::NwSrc | MatchField::NwDst | MatchField::ArpSpa | MatchField::ArpTpa => {
                Notation::Dotted
            }
            MatchField::DlSrc | MatchField::DlDst => Notation::Colons,
            _ => Notation::Number,
        }
    }

    /// Whether packets of the base have it.
    pub(crate) fn is_in(self, base: Base) -> bool
        ensures { result ≡ specs.has_prerequisites base self }
    {
        match self {
            MatchField::NwSrc | MatchField::NwDst => base.is_ipv4(),
            MatchField::ArpSpa | MatchField::ArpTpa => matches!(base, Base::Arp),
            MatchField::TpSrc | MatchField::TpDst => base.is_tcp() || base.is_udp(),
            MatchField::NwTos | MatchField::IpDscp => base.is_ipv4() || base.is_ipv6(),
            MatchField::MplsLabel => matches!(base, Base::Mpls),
            MatchField::DlType => matches!(base, Base::Any),
            _ => true,
        }
    }

    /// Whether a register shares bits with the other, or both are the same match field, or both are the differentiated services
    /// code point.
    pub(crate) fn overlaps(self, other: MatchField) -> bool
        ensures { result ≡ specs.overlap self other }
    {
        let (first, last) = self.units();
        let (other_first, other_last) = other.units();
        first <= other_last && other_first <= last
    }

    /// The first and the last place that it takes up: 0 to 15 are the registers of 32 bits, further ones the other match fields.
    fn units(self) -> (u128, u128)
        ensures { result ≡ specs.units_of self }
    {
        match self {
            MatchField::Register(n) => (n as u128, n as u128),
            MatchField::WideRegister(n) => (2 * n as u128, 2 * n as u128 + 1),
            _ => self.unit(),
        }
    }

    /// The first and the last place that a match field takes up, where it is no register.
    fn unit(self) -> (u128, u128)
        ensures { result ≡ specs.unit_of self }
    {
        match self {
            MatchField::NwSrc => (16, 16),
            MatchField::NwDst => (17, 17),
            MatchField::ArpSpa => (18, 18),
            MatchField::ArpTpa => (19, 19),
            MatchField::TpSrc => (20, 20),
            MatchField::TpDst => (21, 21),
            MatchField::DlSrc => (22, 22),
            MatchField::DlDst => (23, 23),
            MatchField::DlType => (24, 24),
            MatchField::NwTos | MatchField::IpDscp => (25, 25),
            MatchField::Metadata => (26, 26),
            MatchField::TunId => (27, 27),
            MatchField::MplsLabel => (28, 28),
            _ => (29, 29),
        }
    }
}

/// The match field that a word names, if it names one.
pub(crate) fn match_field_named(word: &str) -> Option<MatchField>
    ensures { result ≡ specs.match_field_named word.now }
{
    match network_field(word) {
        Some(field) => Some(field),
        None => match link_field(word) {
            Some(field) => Some(field),
            None => register(word),
        },
    }
}

/// The match field of a network or transport header.
fn network_field(word: &str) -> Option<MatchField>
    ensures { result ≡ specs.network_field word.now }
{
    if word == "nw_src" {
        Some(MatchField::NwSrc)
    } else if word == "nw_dst" {
        Some(MatchField::NwDst)
    } else if word == "arp_spa" {
        Some(MatchField::ArpSpa)
    } else if word == "arp_tpa" {
        Some(MatchField::ArpTpa)
    } else if word == "tp_src" {
        Some(MatchField::TpSrc)
    } else if word == "tp_dst" {
        Some(MatchField::TpDst)
    } else if word == "nw_tos" {
        Some(MatchField::NwTos)
    } else if word == "ip_dscp" {
        Some(MatchField::IpDscp)
    } else {
        None
    }
}

/// The match field of a link's header, or of what the switch keeps besides the packet.
fn link_field(word: &str) -> Option<MatchField>
    ensures { result ≡ specs.link_field word.now }
{
    if word == "dl_src" {
        Some(MatchField::DlSrc)
    } else if word == "dl_dst" {
        Some(MatchField::DlDst)
    } else if word == "dl_type" {
        Some(MatchField::DlType)
    } else if word == "vlan_vid" {
        Some(MatchField::VlanVid)
    } else if word == "mpls_label" {
        Some(MatchField::MplsLabel)
    } else if word == "metadata" {
        Some(MatchField::Metadata)
    } else if word == "tun_id" {
        Some(MatchField::TunId)
    } else {
        None
    }
}

/// The register.
fn register(word: &str) -> Option<MatchField>
    ensures { result ≡ specs.register word.now }
{
    match number_after("reg", 15, word) {
        Some(n) => Some(MatchField::Register(n)),
        None => match number_after("xreg", 7, word) {
            Some(n) => Some(MatchField::WideRegister(n)),
            None => None,
        },
    }
}

/// The number after a front, at most this one and written without zeros in front.
fn number_after(front: &str, largest: u64, word: &str) -> Option<u64>
    ensures { result ≡ specs.register_number front.now largest word.now }
{
    match word.strip_prefix(front) {
        Some(digits) => canonical_upto(largest, digits),
        None => None,
    }
}
