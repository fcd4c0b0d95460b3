use crate::texts::Texts;
use gate_model::Text;

/// A host, or a service of a host.
#[derive(Drop)]
pub struct Object {
    pub host: Text,
    pub service: Option<Text>,
}

/// What is said of an object.
#[derive(Drop)]
pub struct Remark {
    pub text: Text,
    /// Who says it; None: the user.
    pub author: Option<Text>,
}

/// When downtime is, as it was written.
#[derive(Drop)]
pub struct Window {
    /// `--for SPAN`
    pub lasts: Option<Text>,
    /// `--until TIME`
    pub until: Option<Text>,
    /// `--from TIME`
    pub from: Option<Text>,
    /// `--flexible SPAN`
    pub flexible: Option<Text>,
    /// `--trigger ID`
    pub trigger: Option<Text>,
}

/// A command that is asked for.
#[derive(Drop)]
pub enum Request {
    /// `ack HOST [SERVICE] -c TEXT [--author NAME] [--sticky] [--persistent]`
    Ack {
        object: Object,
        remark: Remark,
        sticky: bool,
        persistent: bool,
    },
    /// `unack HOST [SERVICE]`
    Unack {
        object: Object,
    },
    /// `comment HOST [SERVICE] -c TEXT [--author NAME] [--persistent]`
    Comment {
        object: Object,
        remark: Remark,
        persistent: bool,
    },
    /// `uncomment ID..`, or `uncomment HOST [SERVICE] --all`
    Uncomment {
        words: Texts,
        all: bool,
    },
    /// `downtime HOST [SERVICE] -c TEXT [--author NAME]` with a window, and `--services`
    Downtime {
        object: Object,
        remark: Remark,
        window: Window,
        services: bool,
    },
    /// `cancel ID..`
    Cancel {
        ids: Texts,
    },
    /// `passive on|off HOST [SERVICE]`
    Passive {
        setting: Text,
        object: Object,
    },
    /// `result HOST [SERVICE] --state STATE --output TEXT`
    Result {
        object: Object,
        state: Text,
        output: Text,
    },
    /// `shutdown`
    Shutdown,
}

/// What is asked for. A gateway is asked for all but `test-config`, `log` and `restore`.
#[derive(Drop)]
pub enum Task {
    Command(Request),
    /// `status [--state WORD] [--host TEXT]`
    Status {
        state: Option<Text>,
        host: Option<Text>,
    },
    /// `watch [--interval SECONDS]`
    Watch {
        interval: Option<Text>,
    },
    /// `check [[NAME=]ADDRESS].. [--agents ADDRESS] [--age SECONDS] [--keep FILE]`
    Check {
        gateways: Texts,
        agents: Option<Text>,
        age: Option<Text>,
        keep: Option<Text>,
    },
    /// `test-config FILE`
    TestConfig {
        file: Text,
    },
    /// `log FILE [--since TIME]`
    Log {
        file: Text,
        since: Option<Text>,
    },
    /// `stop PAGE [--log FILE] [--pid PID]`
    Stop {
        page: Text,
        log: Option<Text>,
        pid: Option<Text>,
    },
    /// `restore PAGE [--log FILE] [--old]`
    Restore {
        page: Text,
        log: Option<Text>,
        old: bool,
    },
}

/// The options that several tasks have, as they were written.
#[derive(Drop)]
pub struct Options {
    /// `--config FILE`
    pub config: Option<Text>,
    /// `--operators ADDRESS`
    pub operators: Option<Text>,
    /// `--pages ADDRESS`
    pub pages: Option<Text>,
    /// `--wait SECONDS`
    pub wait: Option<Text>,
    /// `--json`
    pub json: bool,
    /// `--escaped`
    pub escaped: bool,
}

/// A task, with the options that many have.
#[derive(Drop)]
pub struct Asked {
    pub options: Options,
    pub task: Task,
}
