//! Letters between the coordinator and the sites.

use crate::name::Txn;
use crate::order::Order;
use crate::reply::Reply;
use terms::copy::TryCopy;
use terms::memory::Memory;
use terms::same::Same;
use terms::text::Text;

/// A letter to or from a site, about a transaction.
#[derive(Debug, Drop)]
pub struct Letter {
    pub site: Text,
    pub txn: Txn,
    pub body: Body,
}

/// What a letter says: an order to the site, or the site's reply.
#[derive(Debug, Drop)]
pub enum Body {
    Order(Order),
    Reply(Reply),
}

impl TryCopy for Letter {
    fn copy(&self) -> Result<Letter, Memory> {
        Ok(Letter {
            site: self.site.copy()?,
            txn: self.txn,
            body: self.body.copy()?,
        })
    }
}

impl Same for Letter {
    fn same(&self, other: &Letter) -> bool {
        self.site.same(&other.site) && self.txn.same(&other.txn) && self.body.same(&other.body)
    }
}

impl TryCopy for Body {
    fn copy(&self) -> Result<Body, Memory> {
        match self {
            Body::Order(order) => Ok(Body::Order(order.copy()?)),
            Body::Reply(reply) => Ok(Body::Reply(reply.copy()?)),
        }
    }
}

impl Same for Body {
    fn same(&self, other: &Body) -> bool {
        match self {
            Body::Order(order) => match other {
                Body::Order(other) => order.same(other),
                Body::Reply(_) => false,
            },
            Body::Reply(reply) => match other {
                Body::Order(_) => false,
                Body::Reply(other) => reply.same(other),
            },
        }
    }
}
