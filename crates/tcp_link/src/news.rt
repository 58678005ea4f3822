//! What is told of peers, nodes and clients.

ghost use Rattle.std.specs.Prelude.{◌≡◌, ◌≢◌};
ghost use Rattle.tcp_link.specs.Names.{item_told, up_of, told_at_end};

use crate::stage::Stage;
use crate::whom::Whom;
use outside::LinkItem;

/// News of a connection.
#[derive(Clone, Copy)]
pub(crate) enum News {
    /// A peer of a replica has a connection.
    Up { at: u8, peer: u8 },
    /// A peer of a replica, or a node, has none any more.
    Down { at: u8, peer: u8 },
    /// A client of a replica, of which something was given, has none any more.
    Left { at: u8, conn: u32 },
}

impl News {
    /// The item that tells it.
    pub(crate) fn item(self) -> LinkItem
        ensures is { result ≡ item_told self }
        ensures open { result ≢ LinkItem.End }
    {
        match self {
            News::Up { at, peer } => LinkItem::Up { at, peer },
            News::Down { at, peer } => LinkItem::Down { at, peer },
            News::Left { at, conn } => LinkItem::Left { at, conn },
        }
    }
}

impl Whom {
    /// What is told once a connection came to this stage, by being made or by its number.
    pub(crate) fn up(self, stage: Stage) -> Option<News>
        ensures { result ≡ up_of stage self }
    {
        match (self, stage) {
            (Whom::Peer { at, peer }, Stage::Up) => Some(News::Up { at, peer }),
            _ => None,
        }
    }

    /// What is told once a connection is closed, at this stage, by which something was given or nothing.
    pub(crate) fn ended(self, stage: Stage, has_given: bool) -> Option<News>
        ensures { result ≡ told_at_end stage has_given self }
    {
        match (self, stage) {
            (Whom::Peer { at, peer }, Stage::Over) => Some(News::Down { at, peer }),
            (Whom::Node { from }, _) => Some(News::Down { at: 0, peer: from }),
            (Whom::Client { at, conn }, _) if has_given => Some(News::Left { at, conn }),
            _ => None,
        }
    }
}
