//! What DEFINE says of a structure and of a queue.

use qsg_num::{Bytes, Delivery, Name, Priority, QueueName, Rules};

/// A definition of an object.
#[derive(Debug, Drop)]
pub enum Definition {
    /// DEFINE CFSTRUCT.
    Cfstruct(CfstructDef),
    /// DEFINE QLOCAL.
    Qlocal(QlocalDef),
}

/// What DEFINE CFSTRUCT says of a list structure. CFLEVEL and OFFLOAD have one value and no field.
#[derive(Debug, Drop)]
pub struct CfstructDef {
    pub name: Name,
    /// The name of the data sets, with one asterisk.
    pub dsgroup: Bytes,
    /// Whether persistent messages are logged and come back after a loss of the structure.
    pub recover: bool,
    /// The offload rules.
    pub rules: Rules,
    /// Bytes of a block of its data sets.
    pub dsblock: u32,
    /// None where the keyword is absent; no effect.
    pub dsbufs: Option<u16>,
    /// None where the keyword is absent; no effect.
    pub dsexpand: Option<bool>,
    /// None where the keyword is absent; no effect.
    pub descr: Option<Bytes>,
}

/// What DEFINE QLOCAL says of a queue. QSGDISP, SHARE, NOREPLACE and DEFSOPT have no field.
#[derive(Debug, Drop)]
pub struct QlocalDef {
    pub name: QueueName,
    /// The name of its structure.
    pub cfstruct: Name,
    /// Whether puts are enabled.
    pub put: bool,
    /// Whether gets are enabled.
    pub get: bool,
    /// The priority of a message whose put names none.
    pub defprty: Priority,
    /// Whether a message is persistent whose put doesn't say.
    pub defpsist: bool,
    /// The order of delivery.
    pub msgdlvsq: Delivery,
    /// The most messages that it holds, uncommitted puts and gets among them.
    pub maxdepth: u32,
    /// Bytes of the longest body that may be put.
    pub maxmsgl: u32,
    /// None where the keyword is absent; no effect.
    pub descr: Option<Bytes>,
}
