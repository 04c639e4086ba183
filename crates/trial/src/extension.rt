// How Cedar writes extension values.

use crate::datetime::Datetime;
use model::kind::ExtensionKind;
use model::node::Node;
use std::fmt;
use std::net::Ipv4Addr;

// A value of an extension type.
#[derive(Clone, Copy)]
pub(crate) enum Extension {
    // A number of ten-thousandths.
    Decimal(i64),
    Ip {
        address: Ipv4Addr,
        prefix: Option<u32>,
    },
    Datetime(Datetime),
    // Milliseconds.
    Duration(i64),
}

impl Extension {
    // The extension value of a node, where the node has a kind of extension and a number that goes with it.
    pub(crate) fn from_node(node: Node) -> Option<Extension> {
        match ExtensionKind::try_from(node.a).ok()? {
            ExtensionKind::Decimal => Some(Extension::Decimal(node.number)),
            ExtensionKind::Ipaddr => Some(Extension::Ip {
                address: Ipv4Addr::from(u32::try_from(node.number).ok()?),
                // the prefix plus 1, or 0 for none
                prefix: node.b.checked_sub(1),
            }),
            ExtensionKind::Datetime => Some(Extension::Datetime(Datetime(node.number))),
            ExtensionKind::Duration => Some(Extension::Duration(node.number)),
        }
    }
}

impl fmt::Display for Extension {
    fn fmt<W: fmt::Write>(&self, f: &mut fmt::Formatter<W>) -> fmt::Result {
        match *self {
            Extension::Decimal(number) => {
                let sign = if number < 0 { "-" } else { "" };
                let size = number.unsigned_abs();
                let (whole, part) = (size / 10_000, size % 10_000);
                write!(f, "decimal(\"{sign}{whole}.{part:04}\")")
            }
            Extension::Ip {
                address,
                prefix: None,
            } => write!(f, "ip(\"{address}\")"),
            Extension::Ip {
                address,
                prefix: Some(bits),
            } => write!(f, "ip(\"{address}/{bits}\")"),
            Extension::Datetime(datetime) => write!(f, "{datetime}"),
            Extension::Duration(number) => write!(f, "duration(\"{number}ms\")"),
        }
    }
}
